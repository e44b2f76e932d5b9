ghost use Rattle.std.specs.Prelude.{◌≡◌, ℕ, drop, Some, Ok};
ghost use Rattle.records.specs.Kinds.{kind_of};
ghost use Rattle.records.specs.Records.{recorded, placed, counted, parse, Fits};

use board::Call;
use faults::NoRoom;

// The byte of kind that a call's record begins with. An enum of kinds would list the seventeen calls once more.
pub fn kind(call: Call) -> u8
    ensures { result ≡ kind_of call }
{
    match call {
        Call::Open { .. } => 1,
        Call::Add { .. } => 2,
        Call::Finish { .. } => 3,
        Call::Abandon { .. } => 4,
        Call::Destroy { .. } => 5,
        Call::Enter { .. } => 6,
        Call::Resume { .. } => 7,
        Call::Exit => 8,
        Call::Pause => 9,
        Call::Load { .. } => 10,
        Call::Store { .. } => 11,
        Call::Fetch { .. } => 12,
        Call::ReadRegister { .. } => 13,
        Call::WriteRegister { .. } => 14,
        Call::ReadMap { .. } => 15,
        Call::WriteMap { .. } => 16,
        Call::Attest { .. } => 17,
    }
}

// Puts the bytes at the front of the buffer, and answers how many there are.
fn put(bytes: &[u8], buffer: &mut [u8]) -> Result<usize, NoRoom>
    ensures after { buffer.new ≡ placed bytes.now buffer.old }
    ensures count { result ≡ counted bytes.now buffer.old }
{
    let whole = bytes.len();
    let room = buffer.len();
    if room < whole {
        return Err(NoRoom {
            missing: whole - room,
        });
    }
    let front = &mut buffer[0..whole];
    front.copy_from_slice(bytes);
    Ok(whole)
}

// Puts the kind and the fields of a call at the front of the buffer.
fn put_call(call: Call, buffer: &mut [u8]) -> Result<usize, NoRoom>
    ensures after { buffer.new ≡ placed (recorded call) buffer.old }
    ensures count { result ≡ counted (recorded call) buffer.old }
    ensures fits { Fits call }
{
    let kind = kind(call);
    match call {
        Call::Open {
            enclave,
            first,
            count,
            entrypoint,
        } => {
            let [e0, e1] = entrypoint.to_be_bytes();
            put(&[kind, enclave, first, count, e0, e1], buffer)
        }
        Call::Add {
            enclave,
            page,
            frame,
            permission,
        } => put(&[kind, enclave, page, frame, permission], buffer),
        Call::Finish { enclave }
        | Call::Abandon { enclave }
        | Call::Destroy { enclave }
        | Call::Enter { enclave }
        | Call::Resume { enclave } => put(&[kind, enclave], buffer),
        Call::Exit | Call::Pause => put(&[kind], buffer),
        Call::Load { address } | Call::Fetch { address } => {
            let [a0, a1] = address.to_be_bytes();
            put(&[kind, a0, a1], buffer)
        }
        Call::Store { address, word } => {
            let [a0, a1] = address.to_be_bytes();
            let [w0, w1, w2, w3] = word.to_be_bytes();
            put(&[kind, a0, a1, w0, w1, w2, w3], buffer)
        }
        Call::ReadRegister { number } => put(&[kind, number], buffer),
        Call::WriteRegister { number, word } => {
            let [w0, w1, w2, w3] = word.to_be_bytes();
            put(&[kind, number, w0, w1, w2, w3], buffer)
        }
        Call::ReadMap { party, page } => put(&[kind, party, page], buffer),
        Call::WriteMap {
            party,
            page,
            frame,
            permission,
        } => put(&[kind, party, page, frame, permission], buffer),
        Call::Attest { word } => {
            let [w0, w1, w2, w3] = word.to_be_bytes();
            put(&[kind, w0, w1, w2, w3], buffer)
        }
    }
}

// Writes the call's record at the front of the buffer, leaves the bytes past it, and answers how many bytes it has.
// A buffer that is shorter is left as it was. What was written reads back as the call, with the bytes past the record.
pub fn write(call: Call, buffer: &mut [u8]) -> Result<usize, NoRoom>
    ensures after { buffer.new ≡ placed (recorded call) buffer.old }
    ensures count { result ≡ counted (recorded call) buffer.old }
    ensures again { (n place : ℕ) → result ≡ Ok n → parse place buffer.new ≡ Ok (Some (call, drop n buffer.old)) }
{
    put_call(call, buffer)
}
