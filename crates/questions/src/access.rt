// The questions of an access by the running party, and where its address lies.
ghost use Rattle.std.specs.Prelude.{◌≡◌, ◌∷◌, ◌==◌, nat_lt};
ghost use Rattle.board.specs.declared.Call.TheVariants.{Fetch};
ghost use Rattle.board.specs.State.{place_of};
ghost use Rattle.board.specs.Questions.{ask, access_questions, rightful_owner};
ghost use Rattle.questions.specs.Ruled.{Ruled};
ghost use Rattle.questions.specs.Asked.{asked};

use crate::Questions;
use crate::ask::{ask, ask_size};
use board::*;

// Rights, as bits of an entry's permission. They are bytes, since a narrower type would take fewer than the contract does.
pub const READ: u8 = 1;

pub const WRITE: u8 = 2;

pub(crate) const EXECUTE: u8 = 4;

impl Questions<'_> {
    // Whose page the running party has to reach at an address.
    fn owner_to_reach(&self, address: u16) -> u8
        ensures { result ≡ rightful_owner self.now.board.now address }
    {
        if self.board.is_inside(self.board.running, address / 64) {
            self.board.running
        } else {
            0
        }
    }

    // Questions 6 and 8; the place in memory where the address lies.
    fn reach(&self, address: u16, right: u8) -> Result<usize, Decline>
        ensures { Ruled (access_questions self.now.board.now right address) (place_of self.now.board.now address) result }
    {
        let reached = self.board.entry(self.board.running, address / 64);
        ask(reached.permits(right), Decline::NotPermitted)?;
        ask(
            self.board.owner(reached.frame) == self.owner_to_reach(address),
            Decline::WrongOwner,
        )?;
        Ok(64 * usize::from(reached.frame) + usize::from(address % 64))
    }

    // Of a load (right 1) or a store (right 2); the place in memory where the address lies.
    pub fn reach_data(&self, address: u16, right: u8) -> Result<usize, Decline>
        ensures { Ruled (ask 1 (self.now.size == 4096) ∷ ask 3 (nat_lt address 4096) ∷ access_questions self.now.board.now right address) (place_of self.now.board.now address) result }
    {
        ask_size(self.size)?;
        ask(address < 4096, Decline::OutOfLimits)?;
        self.reach(address, right)
    }

    // Of a fetch; the place in memory where the address lies.
    pub fn reach_code(&self, address: u16) -> Result<usize, Decline>
        ensures { Ruled (asked self.now (Fetch address)) (place_of self.now.board.now address) result }
    {
        ask_size(self.size)?;
        ask(address < 4096, Decline::OutOfLimits)?;
        ask(
            self.board.running == 0 || self.board.is_inside(self.board.running, address / 64),
            Decline::WrongSide,
        )?;
        self.reach(address, EXECUTE)
    }
}
