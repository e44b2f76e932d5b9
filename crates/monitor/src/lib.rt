// The gate of the board, over any memory and any digest. Each call takes its fields one by one, as a record has them.
#![tactic(auto)]

ghost use Rattle.std.specs.Prelude.{◌≡◌, length};
ghost use Rattle.board.specs.State.{start};
ghost use Rattle.monitor.specs.Gate.{state_of};

use board::Board;
use digest::Digest;
use memory::Memory;
use questions::Questions;

mod attest;
mod gate;
mod life;

#[derive(Drop)]
pub struct Monitor<M, D> {
    board: Board,
    memory: M,
    digest: D,
    key: [u32; 8],
}

impl<M: Memory, D: Digest> Monitor<M, D> {
    // A new monitor over this memory: the host runs, owns every page, and no enclave is there. Memory, digest and key come
    // one by one: they are its fields.
    pub fn new(memory: M, digest: D, key: [u32; 8]) -> Self
        ensures state { state_of M.Memory result ≡ start (M.words memory) }
        ensures memory { result.memory ≡ memory }
        ensures digest { result.digest ≡ digest }
        ensures key { result.key ≡ key }
    {
        Monitor {
            board: Board::new(),
            memory,
            digest,
            key,
        }
    }

    // The questions to its board, over its memory.
    fn questions(&self) -> Questions<'_>
        ensures size { result.size ≡ length (M.words self.now.memory) }
        ensures board { result.board.now ≡ self.now.board }
    {
        Questions {
            size: self.memory.size(),
            board: &self.board,
        }
    }

    // The memory, which no monitor guards any longer. It holds what the calls left in it.
    pub fn into_memory(self) -> M
    where
        D: Drop,
        ensures { result ≡ self.memory }
    {
        self.memory
    }
}
