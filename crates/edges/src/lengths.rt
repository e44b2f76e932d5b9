// Files of no bytes, of the most bytes that a file may have, and of one more.
use crate::logging::log_of;

// Shows how many lines a log has, the first and the last.
fn print_ends(rt: &HostRuntime, log: &str) -> anyhow::Result<()> {
    let lines = log.lines().count();
    let first = log.lines().next().unwrap_or("none");
    let last = log.lines().last().unwrap_or("none");
    println!(rt; "  lines {lines}, first: {first}, last: {last}")?;
    Ok(())
}

// Shows a file by its length and what it is made of, and the ends of its log.
fn print_file(rt: &HostRuntime, bytes: &[u8], made_of: &str) -> anyhow::Result<()> {
    let count = bytes.len();
    println!(rt; "A file of length {count}, {made_of}:")?;
    print_ends(rt, &log_of(rt.alloc(), bytes)?)
}

// The log of a file of that many exits.
fn print_exits(rt: &HostRuntime, count: usize) -> anyhow::Result<()> {
    let bytes = vec![in rt.alloc(); 8u8; count]?;
    print_file(rt, &bytes, "every byte an exit by the host")
}

// The log of a file of the most bytes whose last byte begins a store that is not whole.
fn print_cut_at_the_end(rt: &HostRuntime) -> anyhow::Result<()> {
    let mut bytes = vec![in rt.alloc(); 8u8; 32767]?;
    bytes.push(11)?;
    print_file(rt, &bytes, "32767 exits and the kind byte of a store")
}

// A file that is too long has the one line, whatever its records are. Its log is made before anything is shown of it.
fn print_too_long(rt: &HostRuntime, count: usize) -> anyhow::Result<()> {
    let bytes = vec![in rt.alloc(); 8u8; count]?;
    let log = log_of(rt.alloc(), &bytes)?;
    let alone = log.as_str() == "0 0 9\n";
    println!(rt; "A file of length {count}:")?;
    print_ends(rt, &log)?;
    println!(rt; "  the log is the line 0 0 9 and nothing else: {alone}")?;
    Ok(())
}

fn print_empty(rt: &HostRuntime) -> anyhow::Result<()> {
    let log = log_of(rt.alloc(), &[])?;
    let count = log.len();
    println!(rt; "A file of length 0: the log has {count} bytes")?;
    Ok(())
}

pub fn print_lengths(rt: &HostRuntime) -> anyhow::Result<()> {
    print_empty(rt)?;
    print_exits(rt, 1)?;
    print_exits(rt, 32768)?;
    print_cut_at_the_end(rt)?;
    print_too_long(rt, 32769)?;
    print_too_long(rt, 65536)
}
