// Which kinds of records a file may have.
ghost use Rattle.std.specs.Prelude.{◌≡◌, ℕ, List, [], refl, None, Ok};
ghost use Rattle.records.specs.Records.{Read, seen, parse};
ghost use Rattle.files.specs.Files.{heard, Shortens};

use board::Call;
use faults::ReadFault;

pub trait Kinds {
    // What is read of bytes that begin at a place.
    ghost one: { ℕ → List ℕ → Read };

    fn read(bytes: &[u8], place: usize) -> Result<Option<(Call, &[u8])>, ReadFault>
        ensures value { seen result ≡ one place bytes.now }
        ensures shorter { Shortens bytes.now (seen result) };

    // At the end of the bytes there is no record.
    ghost at_end: { (place : ℕ) → one place [] ≡ Ok None };
}

// All seventeen kinds.
pub struct EveryKind;

impl Kinds for EveryKind {
    ghost one = { parse };

    ghost at_end = { λ place. refl };

    fn read(bytes: &[u8], place: usize) -> Result<Option<(Call, &[u8])>, ReadFault> {
        records::read(bytes, place)
    }
}

// All kinds but 17, attest, which is not known.
pub struct AllButAttest;

impl Kinds for AllButAttest {
    ghost one = { heard };

    ghost at_end = { λ place. refl };

    fn read(bytes: &[u8], place: usize) -> Result<Option<(Call, &[u8])>, ReadFault> {
        if let [17, ..] = bytes {
            return Err(ReadFault::UnknownKind { place, kind: 17 });
        }
        EveryKind::read(bytes, place)
    }
}
