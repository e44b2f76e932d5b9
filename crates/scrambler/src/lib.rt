// A layer over any memory that stores each word under a pad of its place.
#![tactic(auto)]

ghost use Rattle.std.specs.Prelude.{◌≡◌, ◌≤◌, length, bit_xor};
ghost use Rattle.memory.specs.Words.{fetched, stored, replaced};
ghost use Rattle.scrambler.specs.Pads.{pad, padded, meant};

use memory::{Fault, Memory};

#[derive(Drop)]
pub struct Scrambler<M: Memory> {
    below: M,
    key: u32,
}

// What the word of a place is stored under.
fn pad_of(key: u32, place: usize) -> u32
    ensures { result ≡ pad key place }
{
    key.rotate_left((place % 32) as u32) ^ ((place % 0x1_0000_0000) as u32)
}

impl<M: Memory> Scrambler<M> {
    pub fn new(below: M, key: u32) -> Scrambler<M>
        ensures below { result.below ≡ below }
        ensures key { result.key ≡ key }
        ensures means { meant M.Memory.words result ≡ padded key (M.Memory.words below) }
    {
        Scrambler { below, key }
    }

    // The memory below again: it holds the words that the scrambler meant, each under its pad.
    pub fn end(self) -> M
        ensures below { result ≡ self.below }
        ensures words { M.Memory.words result ≡ padded self.key (meant M.Memory.words self) }
    {
        let Scrambler { below, key: _ } = self;
        below
    }
}

impl<M: Memory> Memory for Scrambler<M> {
    ghost words = { λ s. meant M.Memory.words s };

    fn size(&self) -> usize {
        self.below.size()
    }

    // The list below and the key stay as they were.
    fn read(&mut self, place: usize) -> Result<u32, Fault>
        ensures answer { result ≡ fetched (meant M.Memory.words self.old) place }
        ensures keeps { meant M.Memory.words self.new ≡ meant M.Memory.words self.old }
        ensures declined { length (meant M.Memory.words self.old) ≤ place → self.new ≡ self.old }
        ensures below { M.Memory.words self.new.below ≡ M.Memory.words self.old.below }
        ensures key { self.new.key ≡ self.old.key }
    {
        let word = self.below.read(place)?;
        Ok(word ^ pad_of(self.key, place))
    }

    // The list below gets the word xor the pad at that place, and changes nowhere else.
    fn write(&mut self, place: usize, word: u32) -> Result<(), Fault>
        ensures answer { result ≡ stored (meant M.Memory.words self.old) place }
        ensures after { meant M.Memory.words self.new ≡ replaced (meant M.Memory.words self.old) place word }
        ensures declined { length (meant M.Memory.words self.old) ≤ place → self.new ≡ self.old }
        ensures below { M.Memory.words self.new.below ≡ replaced (M.Memory.words self.old.below) place (bit_xor word (pad self.old.key place)) }
        ensures key { self.new.key ≡ self.old.key }
    {
        self.below.write(place, word ^ pad_of(self.key, place))
    }
}
