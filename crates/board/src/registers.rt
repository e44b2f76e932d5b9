// The running party's registers.
ghost use Rattle.std.specs.Prelude.{◌≡◌, slice_index, slice_set};
ghost use Rattle.board.specs.Effects.{with_live};

use crate::Board;
use crate::items::{pick, put};

impl Board {
    // A register, or 0 where there is none.
    pub fn register(&self, number: u8) -> u32
        ensures { result ≡ slice_index self.now.live.registers number }
    {
        pick(&self.live.registers, number as usize, 0)
    }

    // Writes a register, where there is one.
    pub fn set_register(&mut self, number: u8, word: u32)
        ensures { self.new ≡ with_live self.old (record { pc = self.old.live.pc; registers = slice_set self.old.live.registers number word }) }
    {
        put(&mut self.live.registers, number as usize, word);
    }
}
