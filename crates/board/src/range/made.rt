// The one function that makes a range, and its use.
ghost use Rattle.std.specs.Prelude.{◌≡◌, ◌+◌};
ghost use Rattle.board.specs.State.{covers};
ghost use Rattle.board.specs.Ranges.{Made};

use super::Range;

impl Range {
    // The range of these numbers, where they make one.
    pub fn new(first: u8, count: u8) -> Option<Range>
        ensures { Made first count result }
    {
        if 1 <= count && first <= 64 && count <= 64 - first {
            Some(Range { first, count })
        } else {
            None
        }
    }

    // Its first page.
    pub fn first(&self) -> u8
        ensures { result ≡ self.now.first }
    {
        self.first
    }

    // The page after its last.
    pub fn end(&self) -> u8
        ensures { result ≡ self.now.first + self.now.count }
    {
        self.count + self.first
    }

    pub fn contains(&self, page: u16) -> bool
        ensures { result ≡ covers self.now.first self.now.count page }
    {
        let first = u16::from(self.first);
        first <= page && page < first + u16::from(self.count)
    }

    // Whether a page is in the range of these numbers; where they make none, no page is.
    pub fn covers(first: u8, count: u8, page: u16) -> bool
        ensures { result ≡ covers first count page }
    {
        Range::new(first, count).is_some_and(|range| range.contains(page))
    }
}
