// Records written to a buffer that is longer, and to one that is a byte short.
use crate::calls::one_of_each_kind;
use board::Call;
use records::{kind, read, write};

// The bytes of a buffer.
const ROOM: usize = 10;

// What every byte of a buffer is at first.
const FILL: u8 = 0xa5;

// Whether all bytes from a place on are as they were at first.
fn is_kept(buffer: &[u8], from: usize) -> bool {
    buffer.iter().skip(from).all(|byte| *byte == FILL)
}

// Whether the buffer reads as a call that writes the same record, with so many bytes left after it.
fn reads_back(buffer: &[u8; ROOM], left: usize) -> bool {
    let Ok(Some((call, rest))) = read(buffer, 0) else {
        return false;
    };
    let mut again = [FILL; ROOM];
    let _ = write(call, &mut again);
    again == *buffer && rest.len() == left
}

fn print_long_buffer(rt: &HostRuntime, buffer: &[u8; ROOM], length: usize) -> anyhow::Result<()> {
    for byte in buffer.iter().take(length) {
        print!(rt; " {byte:02x}")?;
    }
    let left = ROOM.saturating_sub(length);
    let kept = is_kept(buffer, length);
    let back = reads_back(buffer, left);
    print!(rt; "; {left} bytes past it kept: {kept}; reads back: {back}")?;
    Ok(())
}

// Writes to a buffer of that many bytes, which is too short.
fn print_short_buffer(rt: &HostRuntime, call: Call, room: usize) -> anyhow::Result<()> {
    let mut buffer = vec![in rt.alloc(); FILL; room]?;
    let answer = write(call, &mut buffer);
    let kept = is_kept(&buffer, 0);
    match answer {
        Ok(length) => println!(rt; "; to {room} bytes: {length} WRITTEN")?,
        Err(fault) => {
            let number = fault.number();
            let missing = fault.missing;
            println!(rt;
                "; to {room}: declined with {number}, {missing} missing, buffer kept: {kept}"
            )?;
        }
    }
    Ok(())
}

fn print_written(rt: &HostRuntime, call: Call) -> anyhow::Result<()> {
    let kind = kind(call);
    let mut buffer = [FILL; ROOM];
    let Ok(length) = write(call, &mut buffer) else {
        println!(rt; "  kind {kind}: NOT WRITTEN")?;
        return Ok(());
    };
    print!(rt; "  kind {kind}:")?;
    print_long_buffer(rt, &buffer, length)?;
    print_short_buffer(rt, call, length.saturating_sub(1))
}

pub fn print_writing(rt: &HostRuntime) -> anyhow::Result<()> {
    println!(rt;
        "The same records written to a buffer of {ROOM} bytes, and to one that is a byte short:"
    )?;
    for call in one_of_each_kind() {
        print_written(rt, call)?;
    }
    Ok(())
}
