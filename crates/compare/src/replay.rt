// The same from the bytes on: files of records, made to new monitors.
ghost use Rattle.compare.specs.Replays.{Replays, ComparesFiles};

use crate::{Pair, Side};
use board::Answer;
use digest::Digest;
use files::{EveryKind, File, read_file};
use memory::Memory;
use runs::every::{Ended, run_new};
use std::alloc::{AllocError, Global};

// A file whose calls were made as far as its first fault, and their answers. `sight` judges lent lists of calls
// and answers: it does not stand on the gate, so it does not know this type.
#[derive(Drop)]
pub struct Answered {
    pub file: File,
    pub answers: Vec<Answer>,
}

// Reads a file whole, makes its calls to a new monitor over this memory, as far as its first fault, and gives the memory
// back. Where memory was wanting for the calls or their answers, no call was made. Memory, digest
// and key come one by one: a struct of them would be made only to be taken apart at once.
pub fn run_file<M: Memory, D: Digest + Drop>(
    heap: Global,
    memory: M,
    digest: D,
    key: [u32; 8],
    bytes: &[u8],
) -> Ended<M, Answered>
    ensures { Replays M.Memory D.Digest key memory bytes.now result }
{
    let file = match read_file::<EveryKind>(heap, bytes) {
        Ok(file) => file,
        Err(error) => {
            return Ended {
                memory,
                result: Err(error),
            };
        }
    };
    let Ended { memory, result } = run_new(heap, memory, digest, key, file.calls.as_slice());
    Ended {
        memory,
        result: result.map(|answers| Answered { file, answers }),
    }
}

// Makes the calls of two files to two new monitors with one key, and gives their answers and the memories. Beside
// `compare`, since the contracts differ: this one reaches from the bytes on, and one generic function would need a trait
// with both contracts.
pub fn compare_files<M: Memory, N: Memory, D: Digest + Drop>(
    heap: Global,
    key: [u32; 8],
    left: Side<M, D, u8>,
    right: Side<N, D, u8>,
) -> Pair<Ended<M, Answered>, Ended<N, Answered>>
    ensures { ComparesFiles M.Memory N.Memory D.Digest key left.entry.memory right.entry.memory left.entry.run.now right.entry.run.now result }
{
    Pair {
        left: run_file(heap, left.memory, left.digest, key, left.run),
        right: run_file(heap, right.memory, right.digest, key, right.run),
    }
}
