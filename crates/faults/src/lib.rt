// Why a file, a record or a run of them is declined.
#![tactic(auto)]

ghost use Rattle.std.specs.Prelude.{◌≡◌};
ghost use Rattle.faults.specs.Faults.{fault_number, fault_place, fault_kind, no_room_number, admitted};

// Why no record is read, with the place of its first byte and the byte of kind, which need not be a known one. A file
// that is too long is not read at all.
#[derive(Clone, Copy, PartialEq, Eq)]
pub enum ReadFault {
    TooLong,
    UnknownKind {
        place: usize,
        kind: u8,
    },
    // `missing` counts the bytes that the body lacks.
    ShortBody {
        place: usize,
        kind: u8,
        missing: usize,
    },
}

impl ReadFault {
    // The number of the question that was answered no.
    pub fn number(self) -> u32
        ensures { result ≡ fault_number self }
    {
        // A match, since variants with fields have no discriminants to cast.
        match self {
            ReadFault::TooLong => 9,
            ReadFault::UnknownKind { .. } => 10,
            ReadFault::ShortBody { .. } => 11,
        }
    }

    // The place of the record's first byte; for a file that is too long the 0 that its line shows.
    pub fn place(self) -> usize
        ensures { result ≡ fault_place self }
    {
        match self {
            ReadFault::TooLong => 0,
            ReadFault::UnknownKind { place, .. } | ReadFault::ShortBody { place, .. } => place,
        }
    }

    // The byte of kind; for a file that is too long the 0 that its line shows.
    pub fn kind(self) -> u8
        ensures { result ≡ fault_kind self }
    {
        match self {
            ReadFault::TooLong => 0,
            ReadFault::UnknownKind { kind, .. } | ReadFault::ShortBody { kind, .. } => kind,
        }
    }
}

// Why a run ended: the reader's fault whole, and how many calls were done before it.
#[derive(Clone, Copy, PartialEq, Eq)]
pub struct RunFault {
    pub fault: ReadFault,
    pub done: usize,
}

impl From<(ReadFault, usize)> for RunFault {
    ghost from_gives = { λ f r. r ≡ record { fault = f.0; done = f.1 } };

    fn from((fault, done): (ReadFault, usize)) -> RunFault {
        RunFault { fault, done }
    }
}

// Why a record is not written: how many bytes the buffer lacks.
#[derive(Clone, Copy, PartialEq, Eq)]
pub struct NoRoom {
    pub missing: usize,
}

impl NoRoom {
    // The number of the question that was answered no.
    pub fn number(self) -> u32
        ensures { result ≡ no_room_number self }
    {
        11
    }
}

// The most bytes that a file has.
pub const LONGEST: usize = 32768;

// Whether a file is short enough to be read.
pub fn admit(bytes: &[u8]) -> Result<(), ReadFault>
    ensures { result ≡ admitted bytes.now }
{
    if bytes.len() > LONGEST {
        Err(ReadFault::TooLong)
    } else {
        Ok(())
    }
}
