// The calls of an enclave's life.
ghost use Rattle.std.specs.Prelude.{◌≡◌, true, is_ok, if◌then◌else◌};
ghost use Rattle.digest.specs.Meaning.{Cleared};
ghost use Rattle.board.specs.declared.Call.TheVariants.{Open, Add, Finish, Abandon, Destroy, Enter, Resume, Exit, Pause};
ghost use Rattle.board.specs.State.{idle};
ghost use Rattle.board.specs.Questions.{is_whole};
ghost use Rattle.board.specs.Effects.{cleared_words, forgotten, switched, with_enclave};
ghost use Rattle.board.specs.Answers.{reply_by, no_words};
ghost use Rattle.monitor.specs.Gate.{Does};

use crate::Monitor;
use board::*;
use digest::Digest;
use memory::Memory;
use pages::clear::clear_pages;
use pages::measure::measure;

impl<M: Memory, D: Digest> Monitor<M, D> {
    // Makes a draft whose range is `count` pages from `first` on.
    pub fn open(
        &mut self,
        enclave: u8,
        first: u8,
        count: u8,
        entrypoint: u16,
    ) -> Result<(), Decline>
        ensures { Does M.Memory D.meaning (Open enclave first count entrypoint) self.old (reply_by no_words result) self.new }
    {
        let draft = self
            .questions()
            .may_open(enclave, first, count, entrypoint)?;
        self.board.set_enclave(enclave, draft);
        Ok(())
    }

    // Gives a page of the host, with its words, to a draft.
    pub fn add(&mut self, enclave: u8, page: u8, frame: u8, permission: u8) -> Result<(), Decline>
        ensures { Does M.Memory D.meaning (Add enclave page frame permission) self.old (reply_by no_words result) self.new }
    {
        self.questions().may_add(enclave, page, frame, permission)?;
        self.board
            .set_entry(enclave, page.into(), Entry::new(frame, permission));
        self.board.set_owner(frame, enclave);
        Ok(())
    }

    // Measures a draft and makes it ready; the digest is then cleared.
    pub fn finish(&mut self, enclave: u8) -> Result<(), Decline>
        ensures does { Does M.Memory D.meaning (Finish enclave) self.old (reply_by no_words result) self.new }
        ensures cleared { is_ok result ≡ true → Cleared D.meaning (D.state self.new.digest) (D.count self.new.digest) }
    {
        let finished = self.questions().may_finish(enclave)?;
        let measurement = measure(&mut self.digest, &mut self.memory, &self.board, enclave);
        self.board.set_enclave(
            enclave,
            Enclave {
                measurement,
                ..finished
            },
        );
        Ok(())
    }

    // Clears the pages of an enclave, gives them to the host, and makes its record and map as at first.
    fn remove(&mut self, enclave: u8)
        ensures board { self.new.board ≡ forgotten self.old.board enclave }
        ensures words { M.words self.new.memory ≡ (if is_whole (M.words self.old.memory) then cleared_words self.old.board.owners enclave (M.words self.old.memory) else M.words self.old.memory) }
        ensures digest { self.new.digest ≡ self.old.digest }
        ensures key { self.new.key ≡ self.old.key }
    {
        clear_pages(&mut self.memory, &self.board.owners, enclave);
        self.board.forget(enclave);
    }

    // Removes a draft.
    pub fn abandon(&mut self, enclave: u8) -> Result<(), Decline>
        ensures { Does M.Memory D.meaning (Abandon enclave) self.old (reply_by no_words result) self.new }
    {
        let _ = self
            .questions()
            .may_step(enclave, Call::Abandon { enclave })?;
        self.remove(enclave);
        Ok(())
    }

    // Removes a finished enclave. It differs from `abandon` in what is asked; what both do is `remove`.
    pub fn destroy(&mut self, enclave: u8) -> Result<(), Decline>
        ensures { Does M.Memory D.meaning (Destroy enclave) self.old (reply_by no_words result) self.new }
    {
        let _ = self
            .questions()
            .may_step(enclave, Call::Destroy { enclave })?;
        self.remove(enclave);
        Ok(())
    }

    // Puts an enclave, whose record becomes `started`, in the place of the host, whose context is saved.
    fn start(&mut self, enclave: u8, started: Enclave, live: Context)
        ensures { self.new ≡ record self.old { board = switched (with_enclave self.old.board enclave started) enclave live self.old.board.live } }
    {
        self.board.set_enclave(enclave, started);
        self.board.running = enclave;
        self.board.host = self.board.live;
        self.board.live = live;
    }

    // Saves the host's context and starts an enclave at its entry address, with registers of 0.
    pub fn enter(&mut self, enclave: u8) -> Result<(), Decline>
        ensures { Does M.Memory D.meaning (Enter enclave) self.old (reply_by no_words result) self.new }
    {
        let entered = self.questions().may_step(enclave, Call::Enter { enclave })?;
        let live = Context {
            pc: entered.entrypoint,
            registers: [0; 8],
        };
        self.start(enclave, entered, live);
        Ok(())
    }

    // Saves the host's context and goes on with an enclave where it was paused.
    pub fn resume(&mut self, enclave: u8) -> Result<(), Decline>
        ensures { Does M.Memory D.meaning (Resume enclave) self.old (reply_by no_words result) self.new }
    {
        let resumed = self
            .questions()
            .may_step(enclave, Call::Resume { enclave })?;
        let saved = self.board.enclave(enclave).saved;
        self.start(enclave, resumed, saved);
        Ok(())
    }

    // Puts the host back in the place of the enclave that runs, whose record becomes `left`.
    fn leave(&mut self, left: Enclave)
        ensures { self.new ≡ record self.old { board = switched (with_enclave self.old.board self.old.board.running left) 0 self.old.board.host idle } }
    {
        let enclave = self.board.running;
        self.board.set_enclave(enclave, left);
        self.board.running = 0;
        self.board.live = self.board.host;
        self.board.host = Context::IDLE;
    }

    // Ends the turn of the enclave that runs, and goes on with the host.
    pub fn exit(&mut self) -> Result<(), Decline>
        ensures { Does M.Memory D.meaning Exit self.old (reply_by no_words result) self.new }
    {
        let left = self.questions().may_leave()?;
        self.leave(Enclave {
            phase: Phase::Ready,
            ..left
        });
        Ok(())
    }

    // Saves the context of the enclave that runs, and goes on with the host.
    pub fn pause(&mut self) -> Result<(), Decline>
        ensures { Does M.Memory D.meaning Pause self.old (reply_by no_words result) self.new }
    {
        let left = self.questions().may_leave()?;
        self.leave(Enclave {
            phase: Phase::Paused,
            saved: self.board.live,
            ..left
        });
        Ok(())
    }
}
