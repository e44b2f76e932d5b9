// A file of records read whole: its calls with their places, and how it ends.
#![tactic(auto)]

ghost use Rattle.std.specs.Prelude.{◌≡◌, ◌+◌, ◌≤◌, ◌++◌, length, IfOk, vec_len, vec_capacity};
ghost use Rattle.files.specs.Files.{filed_by, file_by, places_of, calls_of, ended, IsFiled, run_off, lent, TakesTwoRuns};

use board::Call;
use faults::*;
use std::alloc::{AllocError, Global};
use std::error::Error;
use std::fmt;

mod kinds;

pub use kinds::{AllButAttest, EveryKind, Kinds};

// The calls of a file in order, the place of each record's first byte, and how many they are or the fault that ends them.
// Two lists and not one of pairs, since a run takes calls alone.
#[derive(Drop)]
pub struct File {
    pub places: Vec<usize>,
    pub calls: Vec<Call>,
    pub end: Result<usize, RunFault>,
}

// Adds the places and calls of the bytes' records, for which there is room.
fn read_records<K: Kinds>(
    bytes: &[u8],
    places: &mut Vec<usize>,
    calls: &mut Vec<Call>,
) -> Result<usize, RunFault>
    requires places { vec_len places.old + length bytes.now ≤ vec_capacity places.old }
    requires calls { vec_len calls.old + length bytes.now ≤ vec_capacity calls.old }
    requires none { vec_len calls.old ≡ 0 }
    ensures places { places.new.items ≡ places.old.items ++ places_of (filed_by K.one (length bytes.now) 0 bytes.now) }
    ensures calls { calls.new.items ≡ calls.old.items ++ calls_of (filed_by K.one (length bytes.now) 0 bytes.now) }
    ensures end { result ≡ ended (filed_by K.one (length bytes.now) 0 bytes.now) }
{
    let mut rest = bytes;
    while !rest.is_empty() {
        let place = bytes.len() - rest.len();
        let done = calls.len();
        let Some((call, next)) = K::read(rest, place).map_err(|fault| (fault, done))? else {
            return Ok(done);
        };
        places.push_reserved(place);
        calls.push_reserved(call);
        rest = next;
    }
    Ok(calls.len())
}

// Reads a file whole, as far as its first fault. A record of a kind that is not among these is of an unknown kind.
pub fn read_file<K: Kinds>(heap: Global, bytes: &[u8]) -> Result<File, AllocError>
    ensures { IfOk result (λ f. IsFiled f (file_by K.one bytes.now)) }
{
    if let Err(fault) = admit(bytes) {
        return Ok(File {
            places: Vec::new(heap),
            calls: Vec::new(heap),
            end: Err(RunFault::from((fault, 0))),
        });
    }
    let mut places = Vec::with_capacity(heap, bytes.len())?;
    let mut calls = Vec::with_capacity(heap, bytes.len())?;
    let end = read_records::<K>(bytes, &mut places, &mut calls);
    Ok(File { places, calls, end })
}

// A run after its length in two big-endian bytes, and the bytes after the run; nothing where it is cut short.
pub fn take_run(bytes: &[u8]) -> Option<(&[u8], &[u8])>
    ensures { lent result ≡ run_off bytes.now }
{
    let [high, low, rest @ ..] = bytes else {
        return None;
    };
    rest.split_at_checked(u16::from_be_bytes([*high, *low]).into())
}

// Which of two runs is cut short.
#[derive(Clone, Copy, Debug, PartialEq, Eq)]
pub enum CutShort {
    First,
    Second,
}

impl fmt::Display for CutShort {
    fn fmt<W: fmt::Write>(&self, f: &mut fmt::Formatter<W>) -> fmt::Result {
        match self {
            CutShort::First => write!(f, "the first run is cut short"),
            CutShort::Second => write!(f, "the second run is cut short"),
        }
    }
}

impl Error for CutShort {}

// Two runs, each after its length, whatever stands after them.
pub fn take_two_runs(bytes: &[u8]) -> Result<(&[u8], &[u8]), CutShort>
    ensures { TakesTwoRuns bytes.now result }
{
    let (left, rest) = take_run(bytes).ok_or(CutShort::First)?;
    let (right, _) = take_run(rest).ok_or(CutShort::Second)?;
    Ok((left, right))
}
