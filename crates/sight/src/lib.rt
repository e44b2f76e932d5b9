// Two runs of the gate compared by their calls and answers: which calls were inward calls of an enclave, and what others
// than that enclave can tell apart. What is meant is defined in specs/.
#![tactic(auto)]

mod answers;
mod calls;
mod judging;
mod places;
mod watch;

pub use answers::first_told_apart;
pub use calls::first_other_call;
pub use judging::{Verdict, judge_runs};
pub use places::Marked;
pub use watch::{Run, inward_marks};
