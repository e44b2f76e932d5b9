// The inward calls of an enclave, found from the calls and answers of a run.
ghost use Rattle.std.specs.Prelude.{◌≡◌, map, IfOk};
ghost use Rattle.board.specs.Answers.{reply_of};
ghost use Rattle.sight.specs.Marks.{at_start, is_inward_to, accepted_by, next_of, marks_from, TellsInwardCalls};

use board::*;
use digest::Digest;
use std::alloc::{AllocError, Global};

// What the accepted calls of a run tell of its state: the party that runs, and the range of one enclave, of no pages where
// it has none. Two numbers, since an open in a list of calls need not name a lawful range.
#[derive(Clone, Copy)]
struct Watch {
    running: u8,
    first: u8,
    count: u8,
}

impl Watch {
    // The host runs, and the enclave has no range.
    const START: Watch = Watch {
        running: 0,
        first: 0,
        count: 0,
    };

    // The call is an inward one of the enclave.
    fn is_inward(self, enclave: u8, call: Call) -> bool
        ensures { result ≡ is_inward_to enclave self call }
    {
        if self.running != enclave {
            return false;
        }
        match call {
            Call::Exit | Call::Pause => false,
            Call::Load { address } | Call::Store { address, .. } => {
                Range::covers(self.first, self.count, address / 64)
            }
            _ => true,
        }
    }

    // After an accepted call.
    fn accepted(self, enclave: u8, call: Call) -> Watch
        ensures { result ≡ accepted_by enclave self call }
    {
        match call {
            Call::Open {
                enclave: opened,
                first,
                count,
                ..
            } if opened == enclave => Watch {
                first,
                count,
                ..self
            },
            Call::Abandon { enclave: gone } | Call::Destroy { enclave: gone } if gone == enclave =>
                Watch {
                    first: 0,
                    count: 0,
                    ..self
                },
            Call::Enter { enclave: entered } | Call::Resume { enclave: entered } => Watch {
                running: entered,
                ..self
            },
            Call::Exit | Call::Pause => Watch { running: 0, ..self },
            _ => self,
        }
    }

    // After a call that was answered so.
    fn next(self, enclave: u8, call: Call, answer: Answer) -> Watch
        ensures { result ≡ next_of enclave self call (reply_of answer) }
    {
        match answer {
            Answer::Declined(_) => self,
            _ => self.accepted(enclave, call),
        }
    }
}

// A run of the gate: its calls, and what they were answered as far as it went.
#[derive(Clone, Copy)]
pub struct Run<'a> {
    pub calls: &'a [Call],
    pub answers: &'a [Answer],
}

impl<'a> Run<'a> {
    // Calls with their answers.
    pub fn new(calls: &'a [Call], answers: &'a [Answer]) -> Run<'a>
        ensures calls { result.calls.now ≡ calls.now }
        ensures answers { result.answers.now ≡ answers.now }
    {
        Run { calls, answers }
    }
}

// For each call that was answered, whether it was an inward call of the enclave.
pub fn inward_marks<D: Digest>(heap: Global, enclave: u8, run: Run) -> Result<Vec<bool>, AllocError>
    ensures marks { IfOk result (λ v. v.items ≡ marks_from enclave at_start run.entry.calls.now (map reply_of run.entry.answers.now)) }
    ensures inward { IfOk result (λ v. TellsInwardCalls D.meaning enclave run.entry.calls.now (map reply_of run.entry.answers.now) v.items) }
{
    let mut marks = Vec::new(heap);
    let mut watch = Watch::START;
    for (call, answer) in run.calls.iter().zip(run.answers) {
        marks.push(watch.is_inward(enclave, *call))?;
        watch = watch.next(enclave, *call, *answer);
    }
    Ok(marks)
}
