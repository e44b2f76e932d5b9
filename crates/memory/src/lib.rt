// The memory of the board behind one trait: a list of words.
#![tactic(auto)]

ghost use Rattle.std.specs.Prelude.{◌≡◌, ℕ, ◌≤◌, List, length};
ghost use Rattle.memory.specs.Words.{fault_number, fetched, stored, replaced};

pub mod image;
pub mod word;

pub use crate::image::ImageMemory;
pub use crate::word::WordMemory;

// Why a memory declines an access.
#[derive(Clone, Copy, PartialEq, Eq)]
pub enum Fault {
    // The place is not below the size.
    OutOfRange = 12,
}

impl Fault {
    pub fn number(self) -> u32
        ensures { result ≡ fault_number self }
    {
        self as u32
    }
}

pub trait Memory {
    // The list of words that the memory means.
    ghost words: { Self → List ℕ };

    fn size(&self) -> usize
        ensures { result ≡ length (words self.now) };

    // The word at a place. The list stays as it was, and where the read is declined so does the whole memory.
    fn read(&mut self, place: usize) -> Result<u32, Fault>
        ensures answer { result ≡ fetched (words self.old) place }
        ensures keeps { words self.new ≡ words self.old }
        ensures declined { length (words self.old) ≤ place → self.new ≡ self.old };

    // Replaces the word at a place, and no other. Where the write is declined the whole memory stays as it was.
    fn write(&mut self, place: usize, word: u32) -> Result<(), Fault>
        ensures answer { result ≡ stored (words self.old) place }
        ensures after { words self.new ≡ replaced (words self.old) place word }
        ensures declined { length (words self.old) ≤ place → self.new ≡ self.old };
}
