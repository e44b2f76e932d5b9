// Drafts of enclaves in the hands of a host program. Each call takes its fields one by one, as the gate does.
#![tactic(auto)]

ghost use Rattle.std.specs.Prelude.{◌≡◌, true, is_ok};
ghost use Rattle.digest.specs.Meaning.{Cleared};
ghost use Rattle.board.specs.declared.Call.TheVariants.{Open, Add, Finish, Abandon};
ghost use Rattle.board.specs.Answers.{reply_by, no_words};
ghost use Rattle.monitor.specs.Gate.{Does};
ghost use Rattle.drafts.specs.Drafts.{draft_words, finish_reply, HandsOut, GivesBack};

use board::Decline;
use digest::Digest;
use memory::Memory;
use monitor::Monitor;

// The number of an enclave that is being built. A draft is moved, and neither copied nor let go: it ends in an accepted
// `finish` or in `abandon`.
pub struct Draft {
    number: u8,
}

impl Draft {
    // Opens an enclave; where that is accepted, hands out its draft.
    pub fn open<M: Memory, D: Digest>(
        monitor: &mut Monitor<M, D>,
        enclave: u8,
        first: u8,
        count: u8,
        entrypoint: u16,
    ) -> Result<Draft, Decline>
        ensures does { Does M.Memory D.meaning (Open enclave first count entrypoint) monitor.old (reply_by draft_words result) monitor.new }
        ensures draft { HandsOut enclave result }
    {
        monitor.open(enclave, first, count, entrypoint)?;
        Ok(Draft { number: enclave })
    }

    // The number of the enclave.
    pub fn number(&self) -> u8
        ensures { result ≡ self.now.number }
    {
        self.number
    }

    // Adds a page, and gives the draft back with the answer.
    pub fn add<M: Memory, D: Digest>(
        self,
        monitor: &mut Monitor<M, D>,
        page: u8,
        frame: u8,
        permission: u8,
    ) -> (Draft, Result<(), Decline>)
        ensures does { Does M.Memory D.meaning (Add self.number page frame permission) monitor.old (reply_by no_words result.1) monitor.new }
        ensures draft { result.0 ≡ self }
    {
        let answer = monitor.add(self.number, page, frame, permission);
        (self, answer)
    }

    // Finishes the enclave, which keeps the draft; where that is declined, gives it back.
    pub fn finish<M: Memory, D: Digest>(
        self,
        monitor: &mut Monitor<M, D>,
    ) -> Result<(), (Draft, Decline)>
        ensures does { Does M.Memory D.meaning (Finish self.number) monitor.old (finish_reply result) monitor.new }
        ensures draft { GivesBack self result }
        ensures cleared { is_ok result ≡ true → Cleared D.meaning (D.state monitor.new.digest) (D.count monitor.new.digest) }
    {
        match monitor.finish(self.number) {
            Ok(()) => {
                let Draft { number: _ } = self;
                Ok(())
            }
            Err(decline) => Err((self, decline)),
        }
    }

    // Abandons the enclave, and takes the draft whatever the answer.
    pub fn abandon<M: Memory, D: Digest>(self, monitor: &mut Monitor<M, D>) -> Result<(), Decline>
        ensures { Does M.Memory D.meaning (Abandon self.number) monitor.old (reply_by no_words result) monitor.new }
    {
        let Draft { number } = self;
        monitor.abandon(number)
    }
}
