// A pair of runs and its verdict, as they are printed.
use compare::Pair;
use compare::replay::Answered;
use logs::log_text;
use sight::Verdict;
use std::iter;

// A star before the line of an answer that is the enclave's alone.
fn star(marks: &[bool], place: usize) -> &str {
    match marks.get(place) {
        Some(true) => "*",
        _ => " ",
    }
}

// Both logs line by line, each line with its star. A run that is shorter has no line there.
fn print_lines<'a>(
    rt: &HostRuntime,
    left: &'a str,
    right: &'a str,
    verdict: &Verdict,
) -> anyhow::Result<()> {
    // The line of a run that is over, at the lifetime of the lines that it stands among.
    let blank: &'a str = "";
    let longest = left.lines().count().max(right.lines().count());
    let left_lines = left.lines().chain(iter::repeat(blank));
    let right_lines = right.lines().chain(iter::repeat(blank));
    for (place, (left, right)) in left_lines.zip(right_lines).take(longest).enumerate() {
        let left_star = star(&verdict.left, place);
        let right_star = star(&verdict.right, place);
        println!(rt; "{place:>5} {left_star} {left:<22} | {right_star} {right}")?;
    }
    Ok(())
}

// Whether the runs differ only inward, their lines side by side, and what others could tell apart.
pub fn print_pair(
    rt: &HostRuntime,
    enclave: u8,
    pair: &Pair<Answered, Answered>,
    verdict: &Verdict,
) -> anyhow::Result<()> {
    let heap = rt.alloc();
    match verdict.other {
        None => println!(rt; "The runs differ in nothing but inward calls of enclave {enclave}.")?,
        Some(place) => println!(rt;
            "The runs differ otherwise than in inward calls of enclave {enclave}, first at call {place}."
        )?,
    }
    let left = log_text(heap, &pair.left.file, &pair.left.answers)?;
    let right = log_text(heap, &pair.right.file, &pair.right.answers)?;
    println!(rt; "Answers marked * are enclave {enclave}'s alone:")?;
    print_lines(rt, &left, &right, verdict)?;
    match verdict.told {
        None => println!(rt; "Others could tell apart: nothing.")?,
        Some(place) => println!(rt; "Others could tell apart: call {place}.")?,
    }
    Ok(())
}
