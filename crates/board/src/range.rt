// A range of virtual pages.
ghost use Rattle.std.specs.Prelude.{◌+◌, ◌≤◌};

mod made;

// `count` pages from `first` on: at least one page, and none past page 63.
#[derive(Clone, Copy)]
pub struct Range {
    first: u8,
    count: u8,
    ghost some: { 1 ≤ count },
    ghost within: { first + count ≤ 64 },
}
