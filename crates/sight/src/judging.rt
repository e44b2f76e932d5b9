// Two runs judged with regard to one enclave.
ghost use Rattle.std.specs.Prelude.{◌≡◌, map, IfOk};
ghost use Rattle.board.specs.Answers.{reply_of};
ghost use Rattle.sight.specs.Places.{first_place_apart};
ghost use Rattle.sight.specs.Calls.{same_or_inward};
ghost use Rattle.sight.specs.Answers.{same_told};
ghost use Rattle.sight.specs.Judged.{Judged};

use crate::answers::first_told_apart;
use crate::calls::first_other_call;
use crate::places::Marked;
use crate::watch::{Run, inward_marks};
use digest::Digest;
use std::alloc::{AllocError, Global};

// For each call of the two runs whether it was an inward call of the enclave; the first place where the runs differ
// otherwise than in inward calls; and the first place where others are answered differently.
#[derive(Drop)]
pub struct Verdict {
    pub left: Vec<bool>,
    pub right: Vec<bool>,
    pub other: Option<usize>,
    pub told: Option<usize>,
}

// Judges two runs by their calls and answers.
pub fn judge_runs<D: Digest>(
    heap: Global,
    enclave: u8,
    left: Run,
    right: Run,
) -> Result<Verdict, AllocError>
    ensures other { IfOk result (λ v. v.other ≡ first_place_apart same_or_inward left.entry.calls.now v.left.items right.entry.calls.now v.right.items) }
    ensures told { IfOk result (λ v. v.told ≡ first_place_apart same_told left.entry.answers.now v.left.items right.entry.answers.now v.right.items) }
    ensures judged { IfOk result (Judged D.meaning enclave left.entry.calls.now (map reply_of left.entry.answers.now) right.entry.calls.now (map reply_of right.entry.answers.now)) }
{
    let left_marks = inward_marks::<D>(heap, enclave, left)?;
    let right_marks = inward_marks::<D>(heap, enclave, right)?;
    let other = first_other_call(
        Marked::new(left.calls, &left_marks),
        Marked::new(right.calls, &right_marks),
    );
    let told = first_told_apart(
        Marked::new(left.answers, &left_marks),
        Marked::new(right.answers, &right_marks),
    );
    Ok(Verdict {
        left: left_marks,
        right: right_marks,
        other,
        told,
    })
}
