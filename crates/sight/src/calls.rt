// The first place where two runs differ otherwise than in inward calls.
ghost use Rattle.std.specs.Prelude.{◌≡◌, Decides};
ghost use Rattle.sight.specs.Places.{first_place_apart};
ghost use Rattle.sight.specs.Calls.{same_or_inward, TellsOtherCalls};

use crate::places::{Marked, Place, first_apart};
use board::Call;

// The calls are equal. A function of its own, whose contract says it: behind the marks `==` would need an answer by hand.
fn is_same_call(left: Call, right: Call) -> bool
    ensures { Decides result (left ≡ right) }
{
    left == right
}

impl Place for Call {
    ghost alike = { same_or_inward };

    // The marks come first: where both calls are inward, what they are need not be compared.
    fn is_alike(self, inward: bool, other: Call, other_inward: bool) -> bool {
        inward && other_inward || is_same_call(self, other)
    }
}

// The first place where the calls differ and are not both marked, or that only one run has.
#[tactic(auto, using(crate::proofs::Apart::other_calls_told))]
pub fn first_other_call(left: Marked<Call>, right: Marked<Call>) -> Option<usize>
    ensures first { result ≡ first_place_apart same_or_inward left.entry.items.now left.entry.marks.now right.entry.items.now right.entry.marks.now }
    ensures none { TellsOtherCalls left.entry.items.now left.entry.marks.now right.entry.items.now right.entry.marks.now result }
{
    first_apart(left, right)
}
