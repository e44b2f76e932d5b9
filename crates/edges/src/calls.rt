// Calls in words, and their records in a file.
use board::Call;
use records::write;
use std::alloc::AllocError;
use std::fmt;

// A call to be shown in words. A type of this program's own, since Display on Call would fix the words for every program.
#[derive(Drop)]
pub struct InWords(pub Call);

impl fmt::Display for InWords {
    fn fmt<W: fmt::Write>(&self, f: &mut fmt::Formatter<W>) -> fmt::Result {
        match self.0 {
            Call::Open {
                enclave,
                first,
                count,
                entrypoint,
            } => write!(
                f,
                "open {enclave}: first page {first}, count {count}, entry address {entrypoint}"
            ),
            Call::Add {
                enclave,
                page,
                frame,
                permission,
            } => write!(
                f,
                "add to {enclave}: page {page}, frame {frame}, permission {permission}"
            ),
            Call::Finish { enclave } => write!(f, "finish {enclave}"),
            Call::Abandon { enclave } => write!(f, "abandon {enclave}"),
            Call::Destroy { enclave } => write!(f, "destroy {enclave}"),
            Call::Enter { enclave } => write!(f, "enter {enclave}"),
            Call::Resume { enclave } => write!(f, "resume {enclave}"),
            Call::Exit => write!(f, "exit"),
            Call::Pause => write!(f, "pause"),
            Call::Load { address } => write!(f, "load {address}"),
            Call::Store { address, word } => write!(f, "store {word:08x} at {address}"),
            Call::Fetch { address } => write!(f, "fetch {address}"),
            Call::ReadRegister { number } => write!(f, "read register {number}"),
            Call::WriteRegister { number, word } => {
                write!(f, "write {word:08x} to register {number}")
            }
            Call::ReadMap { party, page } => write!(f, "read map of party {party}: page {page}"),
            Call::WriteMap {
                party,
                page,
                frame,
                permission,
            } => write!(
                f,
                "write map of party {party}: page {page}, frame {frame}, permission {permission}"
            ),
            Call::Attest { word } => write!(f, "attest {word:08x}"),
        }
    }
}

// Adds the record of a call. The longest has seven bytes.
pub fn push_record(bytes: &mut Vec<u8>, call: Call) -> Result<(), AllocError> {
    let mut buffer = [0u8; 7];
    if let Ok(length) = write(call, &mut buffer) {
        bytes.extend_from_slice(&buffer[..length])?;
    }
    Ok(())
}

pub fn push_records(bytes: &mut Vec<u8>, calls: &[Call]) -> Result<(), AllocError> {
    for call in calls {
        push_record(bytes, *call)?;
    }
    Ok(())
}

// A call of each kind, by rising kind, with fields that differ from one another.
pub fn one_of_each_kind() -> [Call; 17] {
    [
        Call::Open {
            enclave: 3,
            first: 10,
            count: 2,
            entrypoint: 640,
        },
        Call::Add {
            enclave: 3,
            page: 11,
            frame: 2,
            permission: 5,
        },
        Call::Finish { enclave: 3 },
        Call::Abandon { enclave: 4 },
        Call::Destroy { enclave: 5 },
        Call::Enter { enclave: 6 },
        Call::Resume { enclave: 7 },
        Call::Exit,
        Call::Pause,
        Call::Load { address: 129 },
        Call::Store {
            address: 130,
            word: 0x0102_0304,
        },
        Call::Fetch { address: 128 },
        Call::ReadRegister { number: 6 },
        Call::WriteRegister {
            number: 7,
            word: 0xfffe_fdfc,
        },
        Call::ReadMap { party: 0, page: 2 },
        Call::WriteMap {
            party: 0,
            page: 63,
            frame: 62,
            permission: 1,
        },
        Call::Attest { word: 42 },
    ]
}
