// Calls made to a monitor one after another.
#![tactic(auto)]

ghost use Rattle.board.specs.declared.Call.TheVariants.{Attest};
ghost use Rattle.board.specs.Answers.{reply_by, reply_of};
ghost use Rattle.monitor.specs.Gate.{Does};
ghost use Rattle.runs.specs.Runs.{Answered, AddsRun, heeded};

use board::*;
use digest::Digest;
use memory::Memory;
use monitor::Monitor;
use std::alloc::AllocError;

pub mod every;

// Attest, with the sixteen words that it writes.
fn attested<M: Memory, D: Digest>(
    monitor: &mut Monitor<M, D>,
    word: u32,
) -> Result<[u32; 16], Decline>
    ensures { Does M.Memory D.meaning (Attest word) monitor.old (reply_by (λ words. words) result) monitor.new }
{
    let mut words = [0; 16];
    monitor.attest(word, &mut words)?;
    Ok(words)
}

// One call, whichever it is, attest too.
pub fn make<M: Memory, D: Digest>(monitor: &mut Monitor<M, D>, call: Call) -> Answer
    ensures { Does M.Memory D.meaning call monitor.old (reply_of result) monitor.new }
{
    match call {
        Call::Open {
            enclave,
            first,
            count,
            entrypoint,
        } => monitor.open(enclave, first, count, entrypoint).into(),
        Call::Add {
            enclave,
            page,
            frame,
            permission,
        } => monitor.add(enclave, page, frame, permission).into(),
        Call::Finish { enclave } => monitor.finish(enclave).into(),
        Call::Abandon { enclave } => monitor.abandon(enclave).into(),
        Call::Destroy { enclave } => monitor.destroy(enclave).into(),
        Call::Enter { enclave } => monitor.enter(enclave).into(),
        Call::Resume { enclave } => monitor.resume(enclave).into(),
        Call::Exit => monitor.exit().into(),
        Call::Pause => monitor.pause().into(),
        Call::Load { address } => monitor.load(address).into(),
        Call::Store { address, word } => monitor.store(address, word).into(),
        Call::Fetch { address } => monitor.fetch(address).into(),
        Call::ReadRegister { number } => monitor.read_register(number).into(),
        Call::WriteRegister { number, word } => monitor.write_register(number, word).into(),
        Call::ReadMap { party, page } => monitor.read_map(party, page).into(),
        Call::WriteMap {
            party,
            page,
            frame,
            permission,
        } => monitor.write_map(party, page, frame, permission).into(),
        Call::Attest { word } => attested(monitor, word).into(),
    }
}

// One call, whichever it is but attest, which is not made.
pub fn call<M: Memory, D: Digest>(monitor: &mut Monitor<M, D>, call: Call) -> Option<Answer>
    ensures { Answered M.Memory D.meaning call monitor.old result monitor.new }
{
    if let Call::Attest { .. } = call {
        return None;
    }
    Some(make(monitor, call))
}

// Makes these calls, up to the first attest, and adds their answers; where there is no room for the answers, no call is
// made.
pub fn run<M: Memory, D: Digest>(
    monitor: &mut Monitor<M, D>,
    calls: &[Call],
    answers: &mut Vec<Answer>,
) -> Result<(), AllocError>
    ensures { AddsRun M.Memory D.meaning (heeded calls.now) monitor.old answers.old.items result monitor.new answers.new.items }
{
    let made = calls
        .iter()
        .position(|call| matches!(call, Call::Attest { .. }))
        .unwrap_or(calls.len());
    every::run(monitor, &calls[..made], answers)
}
