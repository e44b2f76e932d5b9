// The records of the enclaves and the owners of the pages.
ghost use Rattle.std.specs.Prelude.{◌≡◌, slice_set};
ghost use Rattle.board.specs.State.{fresh, absent, idle, enclave_of, owner_of, inside};
ghost use Rattle.board.specs.Effects.{with_enclave, with_owners, released, forgotten};

use crate::items::{pick, put};
use crate::{Board, Context, Enclave, Entry, Phase, Range};

impl Context {
    // A party that has done nothing yet.
    pub const IDLE: Context = Context {
        pc: 0,
        registers: [0; 8],
    };
}

impl Enclave {
    // An enclave that is not there. A record and no `Option`, since the board has one for each number.
    pub const ABSENT: Enclave = Enclave {
        phase: Phase::Absent,
        first: 0,
        count: 0,
        entrypoint: 0,
        measurement: [0; 8],
        saved: Context::IDLE,
    };
}

// Gives every page of an enclave to the host.
fn release(owners: &mut [u8], number: u8)
    ensures { owners.new ≡ released owners.old number }
{
    for owner in owners.iter_mut() {
        if *owner == number {
            *owner = 0;
        }
    }
}

impl Board {
    // A new board: the host runs, owns every page, and no enclave is there.
    pub fn new() -> Board
        ensures { result ≡ fresh }
    {
        Board {
            owners: [0; 64],
            running: 0,
            live: Context::IDLE,
            host: Context::IDLE,
            maps: [[Entry::UNMAPPED; 64]; 9],
            enclaves: [Enclave::ABSENT; 8],
        }
    }

    // The record of an enclave, or the absent one where the number is not 1 to 8.
    pub fn enclave(&self, number: u8) -> Enclave
        ensures { result ≡ enclave_of self.now number }
    {
        if number == 0 {
            return Enclave::ABSENT;
        }
        pick(&self.enclaves, number as usize - 1, Enclave::ABSENT)
    }

    // Replaces the record of an enclave, where the number is 1 to 8.
    pub fn set_enclave(&mut self, number: u8, to: Enclave)
        ensures { self.new ≡ with_enclave self.old number to }
    {
        if number != 0 {
            put(&mut self.enclaves, number as usize - 1, to);
        }
    }

    // The party that owns a physical page.
    pub fn owner(&self, frame: u8) -> u8
        ensures { result ≡ owner_of self.now frame }
    {
        pick(&self.owners, frame as usize, 0)
    }

    // Gives a physical page to a party, where there is such a page.
    pub fn set_owner(&mut self, frame: u8, party: u8)
        ensures { self.new ≡ with_owners self.old (slice_set self.old.owners frame party) }
    {
        put(&mut self.owners, frame as usize, party);
    }

    // Gives the pages of an enclave to the host, and makes its map and its record as at first.
    pub fn forget(&mut self, number: u8)
        ensures { self.new ≡ forgotten self.old number }
    {
        release(&mut self.owners, number);
        put(&mut self.maps, number as usize, [Entry::UNMAPPED; 64]);
        self.set_enclave(number, Enclave::ABSENT);
    }

    // Whether a virtual page is inside the range of an enclave.
    pub fn is_inside(&self, number: u8, page: u16) -> bool
        ensures { result ≡ inside self.now number page }
    {
        let record = self.enclave(number);
        Range::covers(record.first, record.count, page)
    }
}
