// The maps of the parties.
ghost use Rattle.std.specs.Prelude.{◌≡◌, false, slice_set};
ghost use Rattle.board.specs.State.{entry_of};
ghost use Rattle.board.specs.Questions.{permits};
ghost use Rattle.board.specs.Effects.{with_entry, marked};

use crate::items::{pick, put};
use crate::{Board, Entry};

impl Entry {
    // An entry that maps nothing. An entry and no `Option`, since an empty one keeps its frame.
    pub const UNMAPPED: Entry = Entry {
        frame: 0,
        permission: 0,
        accessed: false,
    };

    // An entry that was not used since it was set.
    pub fn new(frame: u8, permission: u8) -> Entry
        ensures { result ≡ record { frame = frame; permission = permission; accessed = false } }
    {
        Entry {
            frame,
            permission,
            accessed: false,
        }
    }

    // Whether it permits a right.
    pub fn permits(self, right: u8) -> bool
        ensures { result ≡ permits right self }
    {
        self.permission & right != 0
    }
}

impl Board {
    // The entry of a party for a virtual page, or the empty one where there is none.
    pub fn entry(&self, party: u8, page: u16) -> Entry
        ensures { result ≡ entry_of self.now party page }
    {
        match self.maps.get(party as usize) {
            Some(map) => pick(map, page as usize, Entry::UNMAPPED),
            None => Entry::UNMAPPED,
        }
    }

    // Replaces the entry of a party for a virtual page, where there is one.
    pub fn set_entry(&mut self, party: u8, page: u16, entry: Entry)
        ensures { self.new ≡ with_entry self.old party page entry }
    {
        let party = party as usize;
        if party < self.maps.len() {
            put(&mut self.maps[party], page as usize, entry);
        }
    }

    // Marks the running party's entry for an address.
    pub fn mark(&mut self, address: u16)
        ensures { self.new ≡ marked self.old address }
    {
        let page = address / 64;
        let party = self.running;
        let used = self.entry(party, page);
        self.set_entry(
            party,
            page,
            Entry {
                accessed: true,
                ..used
            },
        );
    }
}
