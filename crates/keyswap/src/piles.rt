// One pair of runs over several piles of memory.
use compare::replay::{Answered, compare_files};
use compare::{Pair, Side};
use holder::LineHolder;
use logs::log_text;
use memory::{ImageMemory, Memory, WordMemory};
use scrambler::Scrambler;
use sha256::Sha256;
use sight::{Run, judge_runs};
use std::alloc::{AllocError, Global};

// The enclave that keeps the key.
const ENCLAVE: u8 = 3;

const WORDS: usize = 4096;

// The monitors' key.
const KEY: [u32; 8] = [7; 8];

const PAD_KEY: u32 = 0x9e37_79b9;

// The logs of two runs, the first call in which they differ otherwise than inward, and the first that others could tell
// apart.
#[derive(Drop)]
pub struct Outcome {
    pub left: String,
    pub right: String,
    pub other: Option<usize>,
    pub told: Option<usize>,
}

// What two runs that were made so come to.
fn judged(
    heap: Global,
    left: Result<Answered, AllocError>,
    right: Result<Answered, AllocError>,
) -> Result<Outcome, AllocError> {
    let left = left?;
    let right = right?;
    let verdict = judge_runs::<Sha256>(
        heap,
        ENCLAVE,
        Run::new(&left.file.calls, &left.answers),
        Run::new(&right.file.calls, &right.answers),
    )?;
    Ok(Outcome {
        left: log_text(heap, &left.file, &left.answers)?,
        right: log_text(heap, &right.file, &right.answers)?,
        other: verdict.other,
        told: verdict.told,
    })
}

// Each of these owns the areas that its memories borrow, so they have no more in common than `judged`. A crate for
// the zeros through a scrambler, which `edges` writes too, is no plainer.
pub fn over_words(heap: Global, left: &[u8], right: &[u8]) -> Result<Outcome, AllocError> {
    let mut left_area = vec![in heap; 0u32; WORDS]?;
    let mut right_area = vec![in heap; 0u32; WORDS]?;
    let pair = compare_files(
        heap,
        KEY,
        Side::new(WordMemory::new(&mut left_area), Sha256::new(), left),
        Side::new(WordMemory::new(&mut right_area), Sha256::new(), right),
    );
    judged(heap, pair.left.result, pair.right.result)
}

// The images are of zeros. The areas hold other words at first, and none of them is to be seen.
pub fn over_images(heap: Global, left: &[u8], right: &[u8]) -> Result<Outcome, AllocError> {
    let image = vec![in heap; 0u8; 16384]?;
    let mut left_area = vec![in heap; 0xa5a5_a5a5u32; WORDS]?;
    let mut right_area = vec![in heap; 0x5a5a_5a5au32; WORDS]?;
    let pair = compare_files(
        heap,
        KEY,
        Side::new(
            ImageMemory::new(&image, &mut left_area),
            Sha256::new(),
            left,
        ),
        Side::new(
            ImageMemory::new(&image, &mut right_area),
            Sha256::new(),
            right,
        ),
    );
    judged(heap, pair.left.result, pair.right.result)
}

// Zeros are written through the scrambler first.
pub fn over_words_and_layers(
    heap: Global,
    left: &[u8],
    right: &[u8],
) -> Result<Outcome, AllocError> {
    let mut left_area = vec![in heap; 0u32; WORDS]?;
    let mut right_area = vec![in heap; 0u32; WORDS]?;
    let mut scrambler = Scrambler::new(WordMemory::new(&mut right_area), PAD_KEY);
    for place in 0..WORDS {
        let _ = scrambler.write(place, 0);
    }
    let Pair { left, right } = compare_files(
        heap,
        KEY,
        Side::new(WordMemory::new(&mut left_area), Sha256::new(), left),
        Side::new(LineHolder::new(scrambler), Sha256::new(), right),
    );
    drop(right.memory.end());
    judged(heap, left.result, right.result)
}
