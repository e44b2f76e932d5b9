// Clearing.
ghost use Rattle.std.specs.Prelude.{◌≡◌, ◌+◌, ◌*◌, ◌<◌, ◌≤◌, length, replicate, if◌then◌else◌};
ghost use Rattle.std.proofs.Math.Seq.{paste};
ghost use Rattle.board.specs.Questions.{is_whole};
ghost use Rattle.board.specs.Effects.{cleared_words};

use memory::Memory;

// Sets the words of this page to 0.
fn clear_page<M: Memory>(memory: &mut M, frame: usize)
    requires { (64 * frame + 64 ≤ length (M.words memory.old)) × (frame < 64) }
    ensures { M.words memory.new ≡ paste (M.words memory.old) (64 * frame) (replicate 64 0) 64 }
{
    for offset in 0..64 {
        let _ = memory.write(64 * frame + offset, 0);
    }
}

// Sets the words of every page of this enclave to 0.
fn clear_owned<M: Memory>(memory: &mut M, owners: &[u8], number: u8)
    requires { (length (M.words memory.old) ≡ 64 * length owners.now) × (length owners.now ≤ 64) }
    ensures { M.words memory.new ≡ cleared_words owners.now number (M.words memory.old) }
{
    for (frame, owner) in owners.iter().enumerate() {
        if *owner == number {
            clear_page(memory, frame);
        }
    }
}

// Sets the words of every page of this enclave to 0; a memory that is not 64 pages long stays as it is.
pub fn clear_pages<M: Memory>(memory: &mut M, owners: &[u8; 64], number: u8)
    ensures { M.words memory.new ≡ (if is_whole (M.words memory.old) then cleared_words owners.now number (M.words memory.old) else M.words memory.old) }
{
    if memory.size() == 4096 {
        clear_owned(memory, owners, number);
    }
}
