// Two new monitors side by side, over memories of any two kinds: their runs, and what nobody can tell and nobody can
// disturb in them.
#![tactic(auto)]

ghost use Rattle.std.specs.Prelude.{◌≡◌};
ghost use Rattle.compare.specs.Compares.{Compares};

use board::{Answer, Call};
use digest::Digest;
use memory::Memory;
use runs::every::{Ended, run_new};
use std::alloc::Global;

pub mod replay;

// What there is of each of two runs.
#[derive(Drop)]
pub struct Pair<L, R> {
    pub left: L,
    pub right: R,
}

// One of two runs: the memory and the digest of its new monitor, and what it makes.
#[derive(Drop)]
pub struct Side<'r, M, D, T> {
    pub memory: M,
    pub digest: D,
    pub run: &'r [T],
}

impl<'r, M, D, T> Side<'r, M, D, T> {
    // A run that is to be made to a new monitor over this memory.
    pub fn new(memory: M, digest: D, run: &'r [T]) -> Side<'r, M, D, T>
        ensures memory { result.memory ≡ memory }
        ensures digest { result.digest ≡ digest }
        ensures run { result.run.now ≡ run.now }
    {
        Side {
            memory,
            digest,
            run,
        }
    }
}

// Makes two lists of calls to two new monitors with one key, and gives their answers and the memories.
pub fn compare<M: Memory, N: Memory, D: Digest + Drop>(
    heap: Global,
    key: [u32; 8],
    left: Side<M, D, Call>,
    right: Side<N, D, Call>,
) -> Pair<Ended<M, Vec<Answer>>, Ended<N, Vec<Answer>>>
    ensures { Compares M.Memory N.Memory D.Digest key left.entry.memory right.entry.memory left.entry.run.now right.entry.run.now result }
{
    Pair {
        left: run_new(heap, left.memory, left.digest, key, left.run),
        right: run_new(heap, right.memory, right.digest, key, right.run),
    }
}
