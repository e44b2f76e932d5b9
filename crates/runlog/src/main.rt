// Reads a file of records from standard input, makes its calls to a new board over a memory of zeros, and prints their log.
#![tactic(auto)]

use faults::LONGEST;
use logs::run_file;
use memory::WordMemory;
use monitor::Monitor;
use sha256::Sha256;
use std::io::{Read, Write};

fn main(rt: HostRuntime) -> anyhow::Result<()> {
    let heap = rt.alloc();
    let mut bytes = Vec::new(heap);
    rt.stdin().take(LONGEST as u64 + 1).read_to_end(&mut bytes)?;
    let mut words = vec![in heap; 0u32; 4096]?;
    let memory = WordMemory::new(&mut words);
    let mut monitor = Monitor::new(memory, Sha256::new(), [0; 8]);
    let text = run_file(heap, &mut monitor, &bytes)?;
    rt.stdout().write_all(text.as_bytes())?;
    Ok(())
}
