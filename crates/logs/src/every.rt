// The log of a file of records of all seventeen kinds, made to a new monitor.
ghost use Rattle.logs.specs.Every.{Logs};

use crate::log_text;
use compare::replay::run_file;
use digest::Digest;
use memory::Memory;
use runs::every::Ended;
use std::alloc::Global;

// Makes the calls of a file of records to a new monitor over this memory, as far as its first fault, writes their log,
// and gives the memory back. Where memory is wanting, either no call was made or all were. Memory, digest and
// key come one by one: a struct of them would be made only to be taken apart at once.
pub fn log_file<M: Memory, D: Digest + Drop>(
    heap: Global,
    memory: M,
    digest: D,
    key: [u32; 8],
    bytes: &[u8],
) -> Ended<M, String>
    ensures { Logs M.Memory D.Digest key memory bytes.now result }
{
    let Ended { memory, result } = run_file(heap, memory, digest, key, bytes);
    Ended {
        memory,
        result: result.and_then(|run| log_text(heap, &run.file, run.answers.as_slice())),
    }
}
