// A layer over any memory that holds eight of its lines, and writes them down when another line takes the slot or the holder is ended.
#![tactic(auto)]

ghost use Rattle.std.specs.Prelude.{◌≡◌, ℕ, ◌≤◌, length, replicate, None};
ghost use Rattle.memory.specs.Words.{fetched, stored, replaced};
ghost use Rattle.holder.specs.Lines.{overlaid, held_lines, held_next, Within, Own, Small, Full};
ghost use Rattle.holder.specs.Accesses.{slots_next, below_next, slots_written, below_written};

use crate::slots::{Slots, hold, slot_of};
use memory::{Fault, Memory};

mod slots;

// A holder cannot be let go: only `end` takes it, so that every held line is written down.
pub struct LineHolder<M: Memory> {
    below: M,
    slots: Slots,
    ghost own: { Own slots.lines },
    ghost small: { Small slots.lines },
    ghost full: { Full slots.lines },
}

impl<M: Memory> LineHolder<M> {
    // No line is held yet.
    pub fn new(below: M) -> LineHolder<M>
        ensures below { result.below ≡ below }
        ensures slots { result.slots.lines ≡ replicate 8 None }
        ensures within { (size : ℕ) → Within size (held_lines result.slots.lines) }
        ensures means { overlaid result.slots.lines (M.Memory.words result.below) ≡ M.Memory.words below }
    {
        LineHolder {
            below,
            slots: Slots { lines: [None; 8] },
        }
    }

    // Writes every held line down, by rising slot, and gives the memory below back: its list is then what the holder meant.
    pub fn end(self) -> M
        ensures { M.Memory.words result ≡ overlaid self.slots.lines (M.Memory.words self.below) }
    {
        let LineHolder { mut below, slots } = self;
        for line in slots.lines.iter().flatten() {
            line.write_down(&mut below);
        }
        below
    }
}

impl<M: Memory> Memory for LineHolder<M> {
    ghost words = { λ h. overlaid h.slots.lines (M.Memory.words h.below) };

    fn size(&self) -> usize {
        self.below.size()
    }

    // An accepted read takes its line in.
    fn read(&mut self, place: usize) -> Result<u32, Fault>
        ensures answer { result ≡ fetched (overlaid self.old.slots.lines (M.Memory.words self.old.below)) place }
        ensures keeps { overlaid self.new.slots.lines (M.Memory.words self.new.below) ≡ overlaid self.old.slots.lines (M.Memory.words self.old.below) }
        ensures declined { length (overlaid self.old.slots.lines (M.Memory.words self.old.below)) ≤ place → self.new ≡ self.old }
        ensures held { held_lines self.new.slots.lines ≡ held_next (held_lines self.old.slots.lines) (length (M.Memory.words self.old.below)) place }
        ensures within { Within (length (M.Memory.words self.old.below)) (held_lines self.old.slots.lines) → Within (length (M.Memory.words self.old.below)) (held_lines self.new.slots.lines) }
        ensures slots { self.new.slots.lines ≡ slots_next self.old.slots.lines (M.Memory.words self.old.below) place }
        ensures below { M.Memory.words self.new.below ≡ below_next self.old.slots.lines (M.Memory.words self.old.below) place }
    {
        if place >= self.below.size() {
            return Err(Fault::OutOfRange);
        }
        let LineHolder { below, slots } = self;
        match hold(&mut slots.lines[slot_of(place)], below, place / 16) {
            Some(line) => Ok(line.words[place % 16]),
            None => below.read(place),
        }
    }

    // An accepted write takes its line in, and the word stays in the slot.
    fn write(&mut self, place: usize, word: u32) -> Result<(), Fault>
        ensures answer { result ≡ stored (overlaid self.old.slots.lines (M.Memory.words self.old.below)) place }
        ensures after { overlaid self.new.slots.lines (M.Memory.words self.new.below) ≡ replaced (overlaid self.old.slots.lines (M.Memory.words self.old.below)) place word }
        ensures declined { length (overlaid self.old.slots.lines (M.Memory.words self.old.below)) ≤ place → self.new ≡ self.old }
        ensures held { held_lines self.new.slots.lines ≡ held_next (held_lines self.old.slots.lines) (length (M.Memory.words self.old.below)) place }
        ensures within { Within (length (M.Memory.words self.old.below)) (held_lines self.old.slots.lines) → Within (length (M.Memory.words self.old.below)) (held_lines self.new.slots.lines) }
        ensures slots { self.new.slots.lines ≡ slots_written self.old.slots.lines (M.Memory.words self.old.below) place word }
        ensures below { M.Memory.words self.new.below ≡ below_written self.old.slots.lines (M.Memory.words self.old.below) place word }
    {
        let size = self.below.size();
        if place >= size {
            return Err(Fault::OutOfRange);
        }
        let LineHolder { below, slots } = self;
        match hold(&mut slots.lines[slot_of(place)], below, place / 16) {
            Some(line) => {
                line.words[place % 16] = word;
                Ok(())
            }
            None => below.write(place, word),
        }
    }
}
