// The eight slots of a line holder, each with at most one line.
ghost use Rattle.std.specs.Prelude.{◌≡◌, ◌+◌, ◌*◌, ◌^◌, ◌<◌, ◌≤◌, cond, length, Some};
ghost use Rattle.std.specs.Borrow.{sem};
ghost use Rattle.std.specs.Option.{option_copied_mut, ForSome};
ghost use Rattle.holder.specs.Lines.{slot_of};
ghost use Rattle.holder.specs.Accesses.{line_at, written_down};
ghost use Rattle.holder.specs.Slots.{lends_line, takes_line, line_next};

use memory::Memory;

// The 16 words of a memory from the place 16 * number on. That the number is small is no invariant of the type, since the
// definitions make lines of any number.
#[derive(Clone, Copy)]
pub struct Line {
    number: usize,
    pub(crate) words: [u32; 16],
}

#[derive(Drop)]
pub struct Slots {
    pub(crate) lines: [Option<Line>; 8],
}

impl Line {
    // Reads a line of the memory below, places rising.
    fn take_in<M: Memory>(below: &mut M, number: usize) -> Line
        requires small { number < 2 ^ 60 }
        requires whole { number * 16 + 16 ≤ length (M.Memory.words below.old) }
        ensures line { result ≡ line_at (M.Memory.words below.old) number }
        ensures below { M.Memory.words below.new ≡ M.Memory.words below.old }
    {
        let mut words = [0; 16];
        for (k, word) in words.iter_mut().enumerate() {
            if let Ok(read) = below.read(number * 16 + k) {
                *word = read;
            }
        }
        Line { number, words }
    }

    // Writes the words of a line down to the memory below.
    pub(crate) fn write_down<M: Memory>(&self, below: &mut M)
        requires { self.now.number < 2 ^ 60 }
        ensures { M.Memory.words below.new ≡ written_down (Some self.now) (M.Memory.words below.old) }
    {
        for (k, word) in self.words.iter().enumerate() {
            let _ = below.write(self.number * 16 + k, *word);
        }
    }
}

// The slot of a place.
pub(crate) fn slot_of(place: usize) -> usize
    ensures { result ≡ slot_of place }
{
    place / 64 % 8
}

// The line of that number in its slot. It is taken in if it is not there, and is none if it would pass the end.
pub(crate) fn hold<'s, M: Memory>(
    slot: &'s mut Option<Line>,
    below: &mut M,
    number: usize,
) -> Option<&'s mut Line>
    requires number { number < 2 ^ 60 }
    requires slot { ForSome slot.old (λ line. line.number < 2 ^ 60) }
    ensures* lends { sem 𝓛 (lends_line slot.entry result) }
    ensures line { option_copied_mut result ≡ line_next slot.old (M.Memory.words below.old) number }
    ensures below { M.Memory.words below.new ≡ cond (takes_line slot.old (length (M.Memory.words below.old)) number) (written_down slot.old (M.Memory.words below.old)) (M.Memory.words below.old) }
{
    if !matches!(slot, Some(line) if line.number == number) {
        if number >= below.size() / 16 {
            return None;
        }
        if let Some(old) = slot {
            old.write_down(below);
        }
        *slot = Some(Line::take_in(below, number));
    }
    slot.as_mut()
}
