// Lines of text.
ghost use Rattle.std.specs.Prelude.{◌≡◌, ◌++◌, string_bytes, OnOk};
ghost use Rattle.logs.specs.Text.{hex, line};

use std::alloc::AllocError;
use std::fmt::Write;

// Adds a word as eight digits of base 16. One at a time, since `{word:08x}` takes more than twice as long.
fn push_word(text: &mut String, word: u32) -> Result<(), AllocError>
    ensures { OnOk result (string_bytes text.new ≡ string_bytes text.old ++ hex word) }
{
    for &shift in &[28u32, 24, 20, 16, 12, 8, 4, 0] {
        let digit = (word >> shift) & 15;
        text.push(char::from_digit(digit, 16).unwrap())?;
    }
    Ok(())
}

// Adds a line: the numbers in decimal, and each word after a space. The kind is the byte of the file, which need not be a
// known one and is printed as it stands, or 0 for a file that is too long.
pub(crate) fn push_line(
    text: &mut String,
    place: usize,
    kind: u8,
    number: u32,
    words: &[u32],
) -> Result<(), AllocError>
    ensures { OnOk result (string_bytes text.new ≡ string_bytes text.old ++ line place kind (record { number = number; words = words.now })) }
{
    write!(text, "{place} {kind} {number}")?;
    for &word in words {
        text.push(' ')?;
        push_word(text, word)?;
    }
    text.push('\n')
}
