// The first place at which two runs differ.
ghost use Rattle.std.specs.Prelude.{◌≡◌, Bool, not, position};
ghost use Rattle.std.specs.List.{zip};
ghost use Rattle.sight.specs.Places.{first_place_apart};

// What stands at the places of a run, each with its mark. A run ends where its items or its marks do.
#[derive(Clone, Copy)]
pub struct Marked<'a, T> {
    pub items: &'a [T],
    pub marks: &'a [bool],
}

impl<'a, T> Marked<'a, T> {
    // Items with their marks.
    pub fn new(items: &'a [T], marks: &'a [bool]) -> Marked<'a, T>
        ensures items { result.items.now ≡ items.now }
        ensures marks { result.marks.now ≡ marks.now }
    {
        Marked { items, marks }
    }
}

// What can stand at a place of a run. A trait and no closure, since its contract speaks of values of the type alone.
pub trait Place: Copy {
    ghost alike: { Self × Bool → Self × Bool → Bool };

    // Whether two of them, each with its mark, count as the same.
    fn is_alike(self, mark: bool, other: Self, other_mark: bool) -> bool
        ensures { result ≡ alike (self, mark) (other, other_mark) };
}

// The first place that both runs have and where they are not alike.
fn first_unlike<T: Place>(left: Marked<T>, right: Marked<T>) -> Option<usize>
    ensures { result ≡ position (λ p. not (T.alike p.0 p.1)) (zip (zip left.entry.items.now left.entry.marks.now) (zip right.entry.items.now right.entry.marks.now)) }
{
    let left = left.items.iter().zip(left.marks);
    let right = right.items.iter().zip(right.marks);
    left.zip(right).position(|((item, mark), (other, other_mark))| {
        !item.is_alike(*mark, *other, *other_mark)
    })
}

// The first place where the runs are not alike, or that only one of them has.
#[tactic(auto, using(crate::proofs::Placing::by_position))]
pub fn first_apart<T: Place>(left: Marked<T>, right: Marked<T>) -> Option<usize>
    ensures { result ≡ first_place_apart T.alike left.entry.items.now left.entry.marks.now right.entry.items.now right.entry.marks.now }
{
    let left_len = left.items.len().min(left.marks.len());
    let right_len = right.items.len().min(right.marks.len());
    let end = (left_len != right_len).then_some(left_len.min(right_len));
    first_unlike(left, right).or(end)
}
