// The questions that are put to each call, in rising order: the first no declines it. The fields of a call come one by one,
// as the gate takes them.
ghost use Rattle.std.specs.Prelude.{◌≡◌, not, [], ◌∷◌, if◌then◌else◌, Ok, Err, is_ok, IfOk, IfErr, ◌&&◌, ◌==◌, nat_eq, nat_le, nat_lt};
ghost use Rattle.board.specs.declared.Phase.TheVariants.{Ready};
ghost use Rattle.board.specs.declared.Call.TheVariants.{Open, Add, Finish, ReadMap, WriteMap};
ghost use Rattle.board.specs.State.{enclave_of, entry_of};
ghost use Rattle.board.specs.Questions.{ask, record_questions, map_questions, in_phase_for, host_runs, is_enclave_number};
ghost use Rattle.board.specs.Effects.{opened, with_phase};
ghost use Rattle.questions.specs.Ruled.{Ruled};
ghost use Rattle.questions.specs.Asked.{asked};
ghost use Rattle.questions.specs.Phases.{moved};

use crate::Questions;
use crate::access::EXECUTE;
use crate::phases::step;
use board::*;

// One question: the decline, unless the answer is yes.
pub(crate) fn ask(yes: bool, or: Decline) -> Result<(), Decline>
    ensures { result ≡ (if yes then Ok tt else Err or) }
{
    if yes { Ok(()) } else { Err(or) }
}

fn is_enclave(number: u8) -> bool
    ensures { result ≡ is_enclave_number number }
{
    (1..=8).contains(&number)
}

// Whether there is such a page, and such an entry for it.
fn is_entry(page: u8, frame: u8, permission: u8) -> bool
    ensures { result ≡ (nat_lt page 64 && (nat_lt frame 64 && nat_le permission 7)) }
{
    page < 64 && frame < 64 && permission <= 7
}

// Question 1: the memory has so many words.
pub(crate) fn ask_size(size: usize) -> Result<(), Decline>
    ensures { result ≡ (if nat_eq size 4096 then Ok tt else Err Decline.WrongMemory) }
{
    ask(size == 4096, Decline::WrongMemory)
}

// Of a register call, which no part of the board decides.
pub fn may_use_register(size: usize, number: u8) -> Result<(), Decline>
    ensures { Ruled (ask 1 (size == 4096) ∷ ask 3 (nat_lt number 8) ∷ []) tt result }
{
    ask_size(size)?;
    ask(number < 8, Decline::OutOfLimits)
}

impl Questions<'_> {
    // Questions 1 and 2 of a call that needs the host.
    fn ask_host(&self) -> Result<(), Decline>
        ensures { result ≡ (if nat_eq self.now.size 4096 then (if host_runs self.now.board.now then Ok tt else Err Decline.WrongParty) else Err Decline.WrongMemory) }
    {
        ask_size(self.size)?;
        ask(self.board.running == 0, Decline::WrongParty)
    }

    // Question 4; the record of the enclave after the call.
    fn ask_phase(&self, number: u8, call: Call) -> Result<Enclave, Decline>
        ensures answer { is_ok result ≡ in_phase_for call self.now.board.now number }
        ensures after { IfOk result (λ after. after ≡ moved call (enclave_of self.now.board.now number)) }
        ensures decline { IfErr result (λ decline. decline ≡ Decline.WrongPhase) }
    {
        step(self.board.enclave(number), call)
    }

    // Of open; the record of the new draft.
    pub fn may_open(
        &self,
        number: u8,
        first: u8,
        count: u8,
        entrypoint: u16,
    ) -> Result<Enclave, Decline>
        ensures { Ruled (asked self.now (Open number first count entrypoint)) (opened first count entrypoint) result }
    {
        self.ask_host()?;
        ask(is_enclave(number), Decline::OutOfLimits)?;
        let range = Range::new(first, count).ok_or(Decline::OutOfLimits)?;
        ask(range.contains(entrypoint / 64), Decline::OutOfLimits)?;
        self.ask_phase(
            number,
            Call::Open {
                enclave: number,
                first,
                count,
                entrypoint,
            },
        )
    }

    // Of add.
    pub fn may_add(&self, number: u8, page: u8, frame: u8, permission: u8) -> Result<(), Decline>
        ensures { Ruled (asked self.now (Add number page frame permission)) tt result }
    {
        self.ask_host()?;
        ask(is_enclave(number), Decline::OutOfLimits)?;
        ask(
            permission != 0 && is_entry(page, frame, permission),
            Decline::OutOfLimits,
        )?;
        let _ = self.ask_phase(
            number,
            Call::Add {
                enclave: number,
                page,
                frame,
                permission,
            },
        )?;
        ask(
            self.board.is_inside(number, page.into()),
            Decline::WrongSide,
        )?;
        ask(
            self.board.entry(number, page.into()).permission == 0,
            Decline::NotEmpty,
        )?;
        ask(self.board.owner(frame) == 0, Decline::WrongOwner)
    }

    // Of abandon, destroy, enter or resume of this enclave; its record after the call. The number stands beside the call, since
    // not every call has one.
    pub fn may_step(&self, number: u8, call: Call) -> Result<Enclave, Decline>
        ensures { Ruled (ask 1 (self.now.size == 4096) ∷ record_questions call self.now.board.now number) (moved call (enclave_of self.now.board.now number)) result }
    {
        self.ask_host()?;
        ask(is_enclave(number), Decline::OutOfLimits)?;
        self.ask_phase(number, call)
    }

    // Of finish; the enclave's record after it, but for its measurement.
    pub fn may_finish(&self, number: u8) -> Result<Enclave, Decline>
        ensures { Ruled (asked self.now (Finish number)) (with_phase (enclave_of self.now.board.now number) Ready) result }
    {
        let finished = self.may_step(number, Call::Finish { enclave: number })?;
        let code = self.board.entry(number, finished.entrypoint / 64);
        ask(code.permits(EXECUTE), Decline::NotPermitted)?;
        Ok(finished)
    }

    // Of exit, pause or attest: an enclave runs; its record.
    pub fn may_leave(&self) -> Result<Enclave, Decline>
        ensures { Ruled (ask 1 (self.now.size == 4096) ∷ ask 2 (not (host_runs self.now.board.now)) ∷ []) (enclave_of self.now.board.now self.now.board.now.running) result }
    {
        ask_size(self.size)?;
        ask(self.board.running != 0, Decline::WrongParty)?;
        Ok(self.board.enclave(self.board.running))
    }

    // Questions 4 and 5 of a map call.
    fn may_use_map(&self, party: u8, page: u8, call: Call) -> Result<(), Decline>
        ensures { Ruled (map_questions call self.now.board.now party page) tt result }
    {
        if party == 0 {
            return Ok(());
        }
        let _ = self.ask_phase(party, call)?;
        ask(
            !self.board.is_inside(party, page.into()),
            Decline::WrongSide,
        )
    }

    // Of read map; the entry.
    pub fn may_read_map(&self, party: u8, page: u8) -> Result<Entry, Decline>
        ensures { Ruled (asked self.now (ReadMap party page)) (entry_of self.now.board.now party page) result }
    {
        self.ask_host()?;
        ask(party <= 8 && page < 64, Decline::OutOfLimits)?;
        self.may_use_map(party, page, Call::ReadMap { party, page })?;
        Ok(self.board.entry(party, page.into()))
    }

    // Of write map.
    pub fn may_write_map(
        &self,
        party: u8,
        page: u8,
        frame: u8,
        permission: u8,
    ) -> Result<(), Decline>
        ensures { Ruled (asked self.now (WriteMap party page frame permission)) tt result }
    {
        self.ask_host()?;
        ask(
            party <= 8 && is_entry(page, frame, permission),
            Decline::OutOfLimits,
        )?;
        self.may_use_map(
            party,
            page,
            Call::WriteMap {
                party,
                page,
                frame,
                permission,
            },
        )
    }
}
