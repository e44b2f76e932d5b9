// Runs of calls of all seventeen kinds.
ghost use Rattle.runs.specs.Runs.{AddsRun};
ghost use Rattle.runs.specs.Every.{EndedSo};

use crate::make;
use board::*;
use digest::Digest;
use memory::Memory;
use monitor::Monitor;
use std::alloc::{AllocError, Global};

// Makes these calls, and adds their answers; where there is no room for the answers, no call is made.
#[tactic(auto, using(crate::proofs::Turns::one_more, crate::proofs::Turns::stopped))]
pub fn run<M: Memory, D: Digest>(
    monitor: &mut Monitor<M, D>,
    calls: &[Call],
    answers: &mut Vec<Answer>,
) -> Result<(), AllocError>
    ensures { AddsRun M.Memory D.meaning calls.now monitor.old answers.old.items result monitor.new answers.new.items }
{
    answers.reserve(calls.len())?;
    for call in calls {
        answers.push_reserved(make(monitor, *call));
    }
    Ok(())
}

// A run that is over: the memory as the calls left it, and what came of it, unless memory was wanting for that.
#[derive(Drop)]
pub struct Ended<M, T> {
    pub memory: M,
    pub result: Result<T, AllocError>,
}

// Makes these calls to a new monitor over this memory, and gives the memory back with their answers. Where there was no
// room for the answers, no call was made. Memory, digest and key come one by one: a struct
// of them would be made only to be taken apart at once.
pub fn run_new<M: Memory, D: Digest + Drop>(
    heap: Global,
    memory: M,
    digest: D,
    key: [u32; 8],
    calls: &[Call],
) -> Ended<M, Vec<Answer>>
    ensures { EndedSo M.Memory D.Digest key memory calls.now result }
{
    let mut monitor = Monitor::new(memory, digest, key);
    let mut answers = Vec::new(heap);
    let result = run(&mut monitor, calls, &mut answers).map(|()| answers);
    Ended {
        memory: monitor.into_memory(),
        result,
    }
}
