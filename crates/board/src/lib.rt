// The board's state apart from its memory's words, the calls of its gate and their answers.
// What each call answers and changes is defined in specs/.
#![tactic(auto)]

ghost use Rattle.std.specs.Prelude.{◌≡◌, Ok, Err};
ghost use Rattle.board.specs.Answers.{decline_number, entry_words};
ghost use Rattle.board.specs.declared.Answer.TheVariants.{Done, Word, Mapped, Attested, Declined};

mod enclaves;
mod entries;
mod items;
pub mod laws;
mod range;
mod registers;

pub use range::Range;

#[derive(Clone, Copy, PartialEq, Eq)]
pub enum Phase {
    Absent,
    Draft,
    Ready,
    Running,
    Paused,
}

// One entry of a party's map: where a virtual page lies, what it permits (read 1, write 2, execute 4, summed; 0 is
// empty), and whether it was used since it was set.
#[derive(Clone, Copy, PartialEq, Eq)]
pub struct Entry {
    pub frame: u8,
    pub permission: u8,
    pub accessed: bool,
}

#[derive(Clone, Copy, PartialEq, Eq)]
pub struct Context {
    pub pc: u16,
    pub registers: [u32; 8],
}

// The record of an enclave. Its range is `count` virtual pages from `first` on.
#[derive(Clone, Copy, PartialEq, Eq)]
pub struct Enclave {
    pub phase: Phase,
    pub first: u8,
    pub count: u8,
    pub entrypoint: u16,
    pub measurement: [u32; 8],
    pub saved: Context,
}

// Party 0 is the host, parties 1 to 8 are the enclaves; enclave e has the record at place e - 1. The board has fixed memory.
#[derive(Drop)]
pub struct Board {
    pub owners: [u8; 64],
    pub running: u8,
    pub live: Context,
    pub host: Context,
    pub maps: [[Entry; 64]; 9],
    pub enclaves: [Enclave; 8],
}

// A call of the gate, with fields of the widths that a record has.
#[derive(Clone, Copy, PartialEq, Eq)]
pub enum Call {
    Open {
        enclave: u8,
        first: u8,
        count: u8,
        entrypoint: u16,
    },
    Add {
        enclave: u8,
        page: u8,
        frame: u8,
        permission: u8,
    },
    Finish {
        enclave: u8,
    },
    Abandon {
        enclave: u8,
    },
    Destroy {
        enclave: u8,
    },
    Enter {
        enclave: u8,
    },
    Resume {
        enclave: u8,
    },
    Exit,
    Pause,
    Load {
        address: u16,
    },
    Store {
        address: u16,
        word: u32,
    },
    Fetch {
        address: u16,
    },
    ReadRegister {
        number: u8,
    },
    WriteRegister {
        number: u8,
        word: u32,
    },
    ReadMap {
        party: u8,
        page: u8,
    },
    WriteMap {
        party: u8,
        page: u8,
        frame: u8,
        permission: u8,
    },
    Attest {
        word: u32,
    },
}

// Why the gate declines a call, each case with the number of the question that was answered no.
#[derive(Clone, Copy, PartialEq, Eq)]
pub enum Decline {
    WrongMemory = 1,
    WrongParty = 2,
    OutOfLimits = 3,
    WrongPhase = 4,
    WrongSide = 5,
    NotPermitted = 6,
    NotEmpty = 7,
    WrongOwner = 8,
}

impl Decline {
    // The number of the question that was answered no.
    pub fn number(self) -> u32
        ensures { result ≡ decline_number self }
    {
        self as u32
    }
}

// An entry as three words: physical page, permission, mark.
impl From<Entry> for [u32; 3] {
    ghost from_gives = { λ entry words. words ≡ entry_words entry };

    fn from(entry: Entry) -> [u32; 3] {
        [
            entry.frame.into(),
            entry.permission.into(),
            entry.accessed.into(),
        ]
    }
}

// What the gate answers to a call.
#[derive(Clone, Copy, PartialEq, Eq)]
pub enum Answer {
    Done,
    Word(u32),
    Mapped(Entry),
    // The measurement, and then its tag.
    Attested([u32; 16]),
    Declined(Decline),
}

impl From<()> for Answer {
    ghost from_gives = { λ _ answer. answer ≡ Done };

    fn from(_: ()) -> Answer {
        Answer::Done
    }
}

impl From<u32> for Answer {
    ghost from_gives = { λ word answer. answer ≡ Word word };

    fn from(word: u32) -> Answer {
        Answer::Word(word)
    }
}

impl From<Entry> for Answer {
    ghost from_gives = { λ entry answer. answer ≡ Mapped entry };

    fn from(entry: Entry) -> Answer {
        Answer::Mapped(entry)
    }
}

impl From<[u32; 16]> for Answer {
    ghost from_gives = { λ words answer. answer ≡ Attested words };

    fn from(words: [u32; 16]) -> Answer {
        Answer::Attested(words)
    }
}

// What a call gave, or why it was declined.
impl<T: Into<Answer>> From<Result<T, Decline>> for Answer {
    ghost from_gives = { λ res answer. elim res [ Ok given ↦ T.converts given answer | Err decline ↦ answer ≡ Declined decline ] };

    fn from(res: Result<T, Decline>) -> Answer {
        match res {
            Ok(given) => given.into(),
            Err(decline) => Answer::Declined(decline),
        }
    }
}
