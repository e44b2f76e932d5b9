// Reads two runs from standard input, each after its length in two big-endian bytes, makes both to new boards, and shows
// what others than one enclave, whose number is the argument, could tell apart.
#![tactic(auto)]

mod show;

use anyhow::{Context, anyhow};
use compare::replay::{Answered, compare_files};
use compare::{Pair, Side};
use files::take_two_runs;
use memory::WordMemory;
use sha256::Sha256;
use show::print_pair;
use sight::{Run, judge_runs};
use std::alloc::{AllocError, Global};
use std::env;
use std::io::Read;

// The most bytes that two runs have with their lengths.
const MOST: u64 = 131074;

const WORDS: usize = 4096;

// The number of the enclave, which is the argument.
fn asked(rt: &HostRuntime) -> anyhow::Result<u8> {
    let text = env::args(rt)?
        .nth(1)
        .context("the number of an enclave is wanted")?;
    match text.parse() {
        Ok(number @ 1..=8) => Ok(number),
        _ => Err(anyhow!("the number of an enclave is 1 to 8")),
    }
}

// Makes both runs, over word memories of zeros, with a key of zeros.
fn run_both(
    heap: Global,
    left: &[u8],
    right: &[u8],
) -> Result<Pair<Answered, Answered>, AllocError> {
    let mut left_words = vec![in heap; 0u32; WORDS]?;
    let mut right_words = vec![in heap; 0u32; WORDS]?;
    let Pair { left, right } = compare_files(
        heap,
        [0; 8],
        Side::new(WordMemory::new(&mut left_words), Sha256::new(), left),
        Side::new(WordMemory::new(&mut right_words), Sha256::new(), right),
    );
    Ok(Pair {
        left: left.result?,
        right: right.result?,
    })
}

fn main(rt: HostRuntime) -> anyhow::Result<()> {
    let enclave = asked(&rt)?;
    let heap = rt.alloc();
    let mut bytes = Vec::new(heap);
    rt.stdin().take(MOST).read_to_end(&mut bytes)?;
    let (left, right) = take_two_runs(&bytes)?;
    let pair = run_both(heap, left, right)?;
    let verdict = judge_runs::<Sha256>(
        heap,
        enclave,
        Run::new(&pair.left.file.calls, &pair.left.answers),
        Run::new(&pair.right.file.calls, &pair.right.answers),
    )?;
    print_pair(&rt, enclave, &pair, &verdict)
}
