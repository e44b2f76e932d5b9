// Two runs in which an enclave keeps one key or another, compared over several piles of memory: others can tell nothing
// apart. Standard input has the two runs, each after its length in two big-endian bytes.
#![tactic(auto)]

mod piles;

use files::take_two_runs;
use piles::{Outcome, over_images, over_words, over_words_and_layers};
use std::io::Read;

// The most bytes that two runs have with their lengths.
const MOST: u64 = 131074;

// How many lines of two logs differ.
fn differing_lines(left: &str, right: &str) -> usize {
    left.lines()
        .zip(right.lines())
        .filter(|(one, other)| one != other)
        .count()
}

fn print_outcome(
    rt: &HostRuntime,
    over: &str,
    outcome: &Outcome,
    plain: &Outcome,
) -> anyhow::Result<()> {
    let same = outcome.left == plain.left && outcome.right == plain.right;
    print!(rt; "over {over}: ")?;
    match outcome.other {
        None => print!(rt; "the runs differ only inward; ")?,
        Some(place) => print!(rt; "the runs DIFFER OTHERWISE at call {place}; ")?,
    }
    match outcome.told {
        None => print!(rt; "others could tell apart nothing; ")?,
        Some(place) => print!(rt; "others could TELL APART call {place}; ")?,
    }
    println!(rt; "the logs are as over word memories: {same}")?;
    Ok(())
}

// The input is read as in `runpair`: a crate for three lines is no plainer.
fn main(rt: HostRuntime) -> anyhow::Result<()> {
    let heap = rt.alloc();
    let mut bytes = Vec::new(heap);
    rt.stdin().take(MOST).read_to_end(&mut bytes)?;
    let (left, right) = take_two_runs(&bytes)?;
    let plain = over_words(heap, left, right)?;
    let lines = plain.left.lines().count();
    let apart = differing_lines(&plain.left, &plain.right);
    println!(rt;
        "two runs of {lines} lines; the enclave itself is answered otherwise in {apart} of them"
    )?;
    print!(rt; "the log of the first:\n{}", plain.left)?;
    print_outcome(&rt, "word memories", &plain, &plain)?;
    print_outcome(
        &rt,
        "image memories",
        &over_images(heap, left, right)?,
        &plain,
    )?;
    print_outcome(
        &rt,
        "a word memory and a line holder over a scrambler over a word memory",
        &over_words_and_layers(heap, left, right)?,
        &plain,
    )
}
