// Files whose last record is cut, or of a kind that is not known.
use crate::calls::{one_of_each_kind, push_record, push_records};
use crate::logging::log_of;
use board::Call;
use records::kind;

// What stands before the record in question, and its log.
#[derive(Drop)]
struct Lead {
    bytes: Vec<u8>,
    log: String,
}

// The host maps page 2 with every permission and stores a word there.
fn make_lead(rt: &HostRuntime) -> anyhow::Result<Lead> {
    let heap = rt.alloc();
    let calls = [
        Call::WriteMap {
            party: 0,
            page: 2,
            frame: 2,
            permission: 7,
        },
        Call::Store {
            address: 129,
            word: 0xdeca_fbad,
        },
    ];
    let mut bytes = Vec::new(heap);
    push_records(&mut bytes, &calls)?;
    let log = log_of(heap, &bytes)?;
    Ok(Lead { bytes, log })
}

// Shows what a file's log adds to that of the lead.
fn print_added(rt: &HostRuntime, lead: &Lead, bytes: &[u8]) -> anyhow::Result<()> {
    let log = log_of(rt.alloc(), bytes)?;
    match log.strip_prefix(lead.log.as_str()) {
        Some("") => print!(rt; " nothing")?,
        Some(added) => {
            for line in added.lines() {
                print!(rt; " {line}")?;
            }
        }
        None => print!(rt; " ANOTHER LOG")?,
    }
    Ok(())
}

// The lead and a call, whole and then with one byte less each time, down to the kind byte.
fn print_cuts_of(rt: &HostRuntime, lead: &Lead, call: Call) -> anyhow::Result<()> {
    let mut bytes = Vec::from_slice(rt.alloc(), &lead.bytes)?;
    push_record(&mut bytes, call)?;
    let body = bytes.len().saturating_sub(lead.bytes.len() + 1);
    let kind = kind(call);
    print!(rt; "  kind {kind}, body {body}:")?;
    print_added(rt, lead, &bytes)?;
    for _ in 0..body {
        let _ = bytes.pop();
        print!(rt; " |")?;
        print_added(rt, lead, &bytes)?;
    }
    println!(rt; "")?;
    Ok(())
}

// The lead, a kind byte that is not known, and an exit that is never made.
fn print_unknown(rt: &HostRuntime, lead: &Lead, kind: u8) -> anyhow::Result<()> {
    let mut bytes = Vec::from_slice(rt.alloc(), &lead.bytes)?;
    bytes.push(kind)?;
    bytes.push(8)?;
    print!(rt; "  kind {kind}:")?;
    print_added(rt, lead, &bytes)?;
    println!(rt; "")?;
    Ok(())
}

fn print_lead(rt: &HostRuntime, lead: &Lead) -> anyhow::Result<()> {
    let count = lead.bytes.len();
    println!(rt; "Two records of {count} bytes, a write map and a store, have the log")?;
    for line in lead.log.lines() {
        println!(rt; "  {line}")?;
    }
    print!(rt; "A third record follows. With no byte of it there the log adds")?;
    print_added(rt, lead, &lead.bytes)?;
    println!(rt; ".")?;
    Ok(())
}

pub fn print_cuts(rt: &HostRuntime) -> anyhow::Result<()> {
    let lead = make_lead(rt)?;
    print_lead(rt, &lead)?;
    println!(rt;
        "With the whole record, and then with 1, 2, .. bytes missing down to the kind byte, it adds"
    )?;
    println!(rt;
        "(each line as place, kind, number and words; the gate does not have kind 17, attest, yet, so it is not known):"
    )?;
    for call in one_of_each_kind() {
        print_cuts_of(rt, &lead, call)?;
    }
    println!(rt; "With a kind byte that is not known, and an exit after it, it adds")?;
    for kind in [0, 18, 255] {
        print_unknown(rt, &lead, kind)?;
    }
    Ok(())
}
