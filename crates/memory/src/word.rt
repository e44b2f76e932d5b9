// The memory that is the caller's slice of words.
ghost use Rattle.std.specs.Prelude.{◌≡◌, ◌≤◌, length};
ghost use Rattle.memory.specs.Words.{fetched, stored, replaced};

use crate::{Fault, Memory};

#[derive(Drop)]
pub struct WordMemory<'a> {
    area: &'a mut [u32],
}

impl<'a> WordMemory<'a> {
    pub fn new(area: &'a mut [u32]) -> WordMemory<'a>
        ensures { result.area ≡ area.entry }
    {
        WordMemory { area }
    }

    // The caller's slice again: it holds the words that the memory means.
    pub fn into_area(self) -> &'a mut [u32]
        ensures { result ≡ self.entry.area }
    {
        let WordMemory { area } = self;
        area
    }
}

impl<'a> Memory for WordMemory<'a> {
    ghost words = { λ m. m.area.now };

    fn size(&self) -> usize {
        self.area.len()
    }

    // A read changes nothing.
    fn read(&mut self, place: usize) -> Result<u32, Fault>
        ensures answer { result ≡ fetched self.old.area.now place }
        ensures keeps { self.new.area.now ≡ self.old.area.now }
        ensures declined { length self.old.area.now ≤ place → self.new ≡ self.old }
        ensures still { self.new ≡ self.old }
    {
        if place < self.area.len() {
            Ok(self.area[place])
        } else {
            Err(Fault::OutOfRange)
        }
    }

    // A write goes to the same slice.
    fn write(&mut self, place: usize, word: u32) -> Result<(), Fault>
        ensures answer { result ≡ stored self.old.area.now place }
        ensures after { self.new.area.now ≡ replaced self.old.area.now place word }
        ensures declined { length self.old.area.now ≤ place → self.new ≡ self.old }
        ensures same { self.new.area.ghost_name ≡ self.old.area.ghost_name }
    {
        if place >= self.area.len() {
            return Err(Fault::OutOfRange);
        }
        self.area[place] = word;
        Ok(())
    }
}
