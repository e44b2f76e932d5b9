// The log of a file on a new board.
use logs::run_file;
use memory::{Memory, WordMemory};
use monitor::Monitor;
use runs::every::Ended;
use sha256::Sha256;
use std::alloc::{AllocError, Global};

// The words of the board's memory.
pub const WORDS: usize = 4096;

// The log over this memory, which is given back as the calls left it.
pub fn log_over<M: Memory>(heap: Global, memory: M, bytes: &[u8]) -> Ended<M, String> {
    let mut monitor = Monitor::new(memory, Sha256::new(), [0; 8]);
    let result = run_file(heap, &mut monitor, bytes);
    Ended {
        memory: monitor.into_memory(),
        result,
    }
}

// The log over a word memory of zeros.
pub fn log_of(heap: Global, bytes: &[u8]) -> Result<String, AllocError> {
    let mut words = vec![in heap; 0u32; WORDS]?;
    log_over(heap, WordMemory::new(&mut words), bytes).result
}
