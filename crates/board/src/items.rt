// Reads and writes of a slice that are total.
ghost use Rattle.std.specs.Prelude.{◌≡◌, slice_index_or, slice_set};

// The item at `i`, or `other` where there is none.
pub(crate) fn pick<T: Copy>(items: &[T], i: usize, other: T) -> T
    ensures { result ≡ slice_index_or items.now i other }
{
    items.get(i).copied().unwrap_or(other)
}

// Writes the item at `i`, where there is one.
#[tactic(auto, using(std::proofs::lemmas::List::set_past))]
pub(crate) fn put<T: Copy>(items: &mut [T], i: usize, item: T)
    ensures { items.new ≡ slice_set items.old i item }
{
    if i < items.len() {
        items[i] = item;
    }
}
