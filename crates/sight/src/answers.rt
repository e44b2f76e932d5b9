// The first place at which others than an enclave are answered differently.
ghost use Rattle.std.specs.Prelude.{◌≡◌};
ghost use Rattle.sight.specs.Places.{first_place_apart};
ghost use Rattle.sight.specs.Answers.{same_told, TellsAnswersApart};

use crate::places::{Marked, Place, first_apart};
use board::Answer;

impl Place for Answer {
    ghost alike = { same_told };

    fn is_alike(self, inward: bool, other: Answer, other_inward: bool) -> bool {
        if inward || other_inward {
            return inward == other_inward;
        }
        self == other
    }
}

// The first place where others are answered differently, or that only one run has. A marked answer is answered to nobody
// else.
#[tactic(auto, using(crate::proofs::Apart::answers_told))]
pub fn first_told_apart(left: Marked<Answer>, right: Marked<Answer>) -> Option<usize>
    ensures first { result ≡ first_place_apart same_told left.entry.items.now left.entry.marks.now right.entry.items.now right.entry.marks.now }
    ensures none { TellsAnswersApart left.entry.items.now left.entry.marks.now right.entry.items.now right.entry.marks.now result }
{
    first_apart(left, right)
}
