// The log of a file of records: its calls made to a monitor, and a line for each.
#![tactic(auto)]

ghost use Rattle.std.specs.Prelude.{◌≡◌, ◌++◌, map, IfOk, string_bytes, OnOk};
ghost use Rattle.board.specs.Answers.{reply_of};
ghost use Rattle.logs.specs.Text.{line, answer_lines, end_line};
ghost use Rattle.logs.specs.Logs.{Logged};

use crate::text::push_line;
use board::*;
use digest::Digest;
use faults::RunFault;
use files::*;
use memory::Memory;
use monitor::Monitor;
use records::kind;
use runs::run;
use std::alloc::{AllocError, Global};

pub mod every;
mod text;

// Adds the line of an answered call.
fn push_answer(text: &mut String, place: usize, kind: u8, answer: Answer) -> Result<(), AllocError>
    ensures { OnOk result (string_bytes text.new ≡ string_bytes text.old ++ line place kind (reply_of answer)) }
{
    match answer {
        Answer::Done => push_line(text, place, kind, 0, &[]),
        Answer::Word(word) => push_line(text, place, kind, 0, &[word]),
        Answer::Mapped(entry) => push_line(text, place, kind, 0, &<[u32; 3]>::from(entry)),
        Answer::Attested(words) => push_line(text, place, kind, 0, &words),
        Answer::Declined(decline) => push_line(text, place, kind, decline.number(), &[]),
    }
}

// Adds a line for each answered call. Three lists: a file has places and calls apart, and to join them with the answers
// first would copy all three.
fn push_answers(
    text: &mut String,
    places: &[usize],
    calls: &[Call],
    answers: &[Answer],
) -> Result<(), AllocError>
    ensures { OnOk result (string_bytes text.new ≡ string_bytes text.old ++ answer_lines places.now calls.now (map reply_of answers.now)) }
{
    for ((place, call), answer) in places.iter().zip(calls).zip(answers) {
        push_answer(text, *place, kind(*call), *answer)?;
    }
    Ok(())
}

// Adds the line of the fault that ended a file, if one did.
fn push_end(text: &mut String, end: Result<usize, RunFault>) -> Result<(), AllocError>
    ensures { OnOk result (string_bytes text.new ≡ string_bytes text.old ++ end_line end) }
{
    match end {
        Ok(_) => Ok(()),
        Err(ended) => push_line(
            text,
            ended.fault.place(),
            ended.fault.kind(),
            ended.fault.number(),
            &[],
        ),
    }
}

// The log of a file whose calls were answered so.
pub fn log_text(heap: Global, file: &File, answers: &[Answer]) -> Result<String, AllocError>
    ensures { IfOk result (λ t. string_bytes t ≡ answer_lines file.now.places.items file.now.calls.items (map reply_of answers.now) ++ end_line file.now.end) }
{
    let mut text = String::new(heap);
    push_answers(
        &mut text,
        file.places.as_slice(),
        file.calls.as_slice(),
        answers,
    )?;
    push_end(&mut text, file.end)?;
    Ok(text)
}

// Makes the calls of a file of records to a monitor, as far as its first fault, and writes their log. Where memory is
// wanting, either no call was made or all were.
pub fn run_file<M: Memory, D: Digest>(
    heap: Global,
    monitor: &mut Monitor<M, D>,
    bytes: &[u8],
) -> Result<String, AllocError>
    ensures { Logged M.Memory D.meaning bytes.now monitor.old result monitor.new }
{
    let file = read_file::<AllButAttest>(heap, bytes)?;
    let mut answers = Vec::new(heap);
    run(monitor, file.calls.as_slice(), &mut answers)?;
    log_text(heap, &file, answers.as_slice())
}
