ghost use Rattle.std.specs.Prelude.{◌≡◌, ℕ, List, ◌++◌, Some, Ok};
ghost use Rattle.board.specs.declared.Call.{Call};
ghost use Rattle.records.specs.Kinds.{length_of_body};
ghost use Rattle.records.specs.Records.{recorded, lacking, parse, seen, Fits, Back};

use board::Call;
use faults::ReadFault;

// How many bytes the body of a kind has. The kind is the byte itself, since every byte has an answer.
fn body_length(kind: u8) -> Option<usize>
    ensures { result ≡ length_of_body kind }
{
    match kind {
        8 | 9 => Some(0),
        3..=7 | 13 => Some(1),
        10 | 12 | 15 => Some(2),
        2 | 16 | 17 => Some(4),
        1 | 14 => Some(5),
        11 => Some(6),
        _ => None,
    }
}

// The fault of a record whose body has only `got` bytes, with its byte of kind.
fn fault(place: usize, kind: u8, got: usize) -> ReadFault
    ensures { result ≡ lacking place kind got (length_of_body kind) }
{
    match body_length(kind) {
        Some(length) => ReadFault::ShortBody {
            place,
            kind,
            missing: length.saturating_sub(got),
        },
        None => ReadFault::UnknownKind { place, kind },
    }
}

// Takes the bytes apart into kind, fields and rest.
fn take_apart(bytes: &[u8], place: usize) -> Result<Option<(Call, &[u8])>, ReadFault>
    ensures { seen result ≡ parse place bytes.now }
{
    match bytes {
        [] => Ok(None),
        &[1, enclave, first, count, e0, e1, ref rest @ ..] => {
            let entrypoint = u16::from_be_bytes([e0, e1]);
            Ok(Some((
                Call::Open {
                    enclave,
                    first,
                    count,
                    entrypoint,
                },
                rest,
            )))
        }
        &[2, enclave, page, frame, permission, ref rest @ ..] => Ok(Some((
            Call::Add {
                enclave,
                page,
                frame,
                permission,
            },
            rest,
        ))),
        &[3, enclave, ref rest @ ..] => Ok(Some((Call::Finish { enclave }, rest))),
        &[4, enclave, ref rest @ ..] => Ok(Some((Call::Abandon { enclave }, rest))),
        &[5, enclave, ref rest @ ..] => Ok(Some((Call::Destroy { enclave }, rest))),
        &[6, enclave, ref rest @ ..] => Ok(Some((Call::Enter { enclave }, rest))),
        &[7, enclave, ref rest @ ..] => Ok(Some((Call::Resume { enclave }, rest))),
        &[8, ref rest @ ..] => Ok(Some((Call::Exit, rest))),
        &[9, ref rest @ ..] => Ok(Some((Call::Pause, rest))),
        &[10, a0, a1, ref rest @ ..] => {
            let address = u16::from_be_bytes([a0, a1]);
            Ok(Some((Call::Load { address }, rest)))
        }
        &[11, a0, a1, w0, w1, w2, w3, ref rest @ ..] => {
            let address = u16::from_be_bytes([a0, a1]);
            let word = u32::from_be_bytes([w0, w1, w2, w3]);
            Ok(Some((Call::Store { address, word }, rest)))
        }
        &[12, a0, a1, ref rest @ ..] => {
            let address = u16::from_be_bytes([a0, a1]);
            Ok(Some((Call::Fetch { address }, rest)))
        }
        &[13, number, ref rest @ ..] => Ok(Some((Call::ReadRegister { number }, rest))),
        &[14, number, w0, w1, w2, w3, ref rest @ ..] => {
            let word = u32::from_be_bytes([w0, w1, w2, w3]);
            Ok(Some((Call::WriteRegister { number, word }, rest)))
        }
        &[15, party, page, ref rest @ ..] => Ok(Some((Call::ReadMap { party, page }, rest))),
        &[16, party, page, frame, permission, ref rest @ ..] => Ok(Some((
            Call::WriteMap {
                party,
                page,
                frame,
                permission,
            },
            rest,
        ))),
        &[17, w0, w1, w2, w3, ref rest @ ..] => {
            let word = u32::from_be_bytes([w0, w1, w2, w3]);
            Ok(Some((Call::Attest { word }, rest)))
        }
        &[kind, ref body @ ..] => Err(fault(place, kind, body.len())),
    }
}

// The call whose record the bytes begin with, and the bytes after it; nothing at the end of the bytes.
// The bytes begin at `place` of the file, which a fault carries.
// A record that is read writes back as its bytes, and one that was written of a call is read as that call.
pub fn read(bytes: &[u8], place: usize) -> Result<Option<(Call, &[u8])>, ReadFault>
    ensures value { seen result ≡ parse place bytes.now }
    ensures back { Back bytes.now (seen result) }
    ensures again { (c : Call) (t : List ℕ) → Fits c → bytes.now ≡ recorded c ++ t → seen result ≡ Ok (Some (c, t)) }
{
    take_apart(bytes, place)
}
