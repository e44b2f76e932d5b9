// The same runs over a word memory, over an image memory, and over a line holder over a scrambler over a word memory.
use crate::calls::{InWords, push_records};
use crate::logging::{WORDS, log_over};
use board::Call;
use files::{AllButAttest, read_file};
use holder::LineHolder;
use memory::{ImageMemory, Memory, WordMemory};
use runs::every::Ended;
use scrambler::Scrambler;
use std::alloc::{AllocError, Global};

const KEY: u32 = 0x9e37_79b9;

// The log of a run, and the words that it left in the memory.
#[derive(Drop, PartialEq, Eq)]
struct Outcome {
    log: String,
    words: Vec<u32>,
}

// The words that a memory means.
fn words_of<M: Memory>(heap: Global, memory: &mut M) -> Result<Vec<u32>, AllocError> {
    let mut words = Vec::new(heap);
    for place in 0..WORDS {
        if let Ok(word) = memory.read(place) {
            words.push(word)?;
        }
    }
    Ok(words)
}

// What a run came to over a memory, which is let go.
fn outcome_of<M: Memory + Drop>(
    heap: Global,
    run: Ended<M, String>,
) -> Result<Outcome, AllocError> {
    let Ended { mut memory, result } = run;
    Ok(Outcome {
        log: result?,
        words: words_of(heap, &mut memory)?,
    })
}

// Over a word memory of zeros. Each of these owns the areas that its memory borrows, so they share `outcome_of` alone.
fn over_words(heap: Global, bytes: &[u8]) -> Result<Outcome, AllocError> {
    let mut area = vec![in heap; 0u32; WORDS]?;
    outcome_of(heap, log_over(heap, WordMemory::new(&mut area), bytes))
}

// Over an image of zeros. The area holds other words at first, and none of them is to be seen.
fn over_image(heap: Global, bytes: &[u8]) -> Result<Outcome, AllocError> {
    let image = vec![in heap; 0u8; 16384]?;
    let mut area = vec![in heap; 0xa5a5_a5a5u32; WORDS]?;
    outcome_of(
        heap,
        log_over(heap, ImageMemory::new(&image, &mut area), bytes),
    )
}

// Over a line holder over a scrambler over a word memory. Zeros are written through the scrambler first, and the words
// are read through it again when the holder is ended.
fn over_layers(heap: Global, bytes: &[u8]) -> Result<Outcome, AllocError> {
    let mut area = vec![in heap; 0u32; WORDS]?;
    let mut scrambler = Scrambler::new(WordMemory::new(&mut area), KEY);
    for place in 0..WORDS {
        let _ = scrambler.write(place, 0);
    }
    let Ended { memory, result } = log_over(heap, LineHolder::new(scrambler), bytes);
    outcome_of(
        heap,
        Ended {
            memory: memory.end(),
            result,
        },
    )
}

// Shows each call of a file beside its line.
fn print_calls(rt: &HostRuntime, bytes: &[u8], log: &str) -> anyhow::Result<()> {
    let calls = read_file::<AllButAttest>(rt.alloc(), bytes)?.calls;
    for (call, line) in calls.iter().zip(log.lines()) {
        let call = InWords(*call);
        println!(rt; "  {line}: {call}")?;
    }
    let lines = log.lines().count();
    println!(rt; "  lines in all: {lines}")?;
    Ok(())
}

// Shows whether the other memories have the same log and words.
fn print_likeness(rt: &HostRuntime, bytes: &[u8], plain: &Outcome) -> anyhow::Result<()> {
    let image = over_image(rt.alloc(), bytes)? == *plain;
    println!(rt; "  the same log and words over an image memory: {image}")?;
    let layers = over_layers(rt.alloc(), bytes)? == *plain;
    println!(rt; "  and over a line holder over a scrambler over a word memory: {layers}")?;
    Ok(())
}

fn print_run(rt: &HostRuntime, bytes: &[u8]) -> anyhow::Result<()> {
    let plain = over_words(rt.alloc(), bytes)?;
    print_calls(rt, bytes, &plain.log)?;
    print_likeness(rt, bytes, &plain)
}

// Nine records: a page of the host becomes a page of enclave 3, which loads the host's word from it.
fn nine_records(heap: Global) -> Result<Vec<u8>, AllocError> {
    let mut bytes = Vec::new(heap);
    bytes.extend_from_slice(&[16, 0, 2, 2, 3])?;
    bytes.extend_from_slice(&[11, 0, 128, 0, 0, 0, 7])?;
    bytes.extend_from_slice(&[1, 3, 10, 2, 2, 128])?;
    bytes.extend_from_slice(&[2, 3, 10, 2, 5])?;
    bytes.extend_from_slice(&[10, 0, 128])?;
    bytes.extend_from_slice(&[3, 3])?;
    bytes.extend_from_slice(&[6, 3])?;
    bytes.extend_from_slice(&[10, 2, 128])?;
    bytes.extend_from_slice(&[8])?;
    Ok(bytes)
}

// The host stores words on two pages, and makes them enclave 3's.
fn building() -> [Call; 15] {
    [
        Call::WriteMap {
            party: 0,
            page: 2,
            frame: 2,
            permission: 3,
        },
        Call::Store {
            address: 128,
            word: 0x0000_0007,
        },
        Call::Store {
            address: 191,
            word: 0xdeca_fbad,
        },
        Call::WriteMap {
            party: 0,
            page: 3,
            frame: 3,
            permission: 3,
        },
        Call::Store {
            address: 192,
            word: 0x0bad_cafe,
        },
        Call::WriteRegister {
            number: 5,
            word: 0x1111_2222,
        },
        Call::Open {
            enclave: 3,
            first: 10,
            count: 2,
            entrypoint: 640,
        },
        Call::Finish { enclave: 3 },
        Call::Add {
            enclave: 3,
            page: 10,
            frame: 2,
            permission: 5,
        },
        Call::Add {
            enclave: 3,
            page: 11,
            frame: 3,
            permission: 3,
        },
        Call::Add {
            enclave: 3,
            page: 11,
            frame: 4,
            permission: 1,
        },
        Call::Add {
            enclave: 3,
            page: 12,
            frame: 4,
            permission: 1,
        },
        Call::Load { address: 128 },
        Call::Enter { enclave: 3 },
        Call::Finish { enclave: 3 },
    ]
}

// The host lends enclave 3 a page outside its range, and the enclave runs.
fn inside() -> [Call; 14] {
    [
        Call::WriteMap {
            party: 3,
            page: 20,
            frame: 10,
            permission: 3,
        },
        Call::WriteMap {
            party: 3,
            page: 11,
            frame: 10,
            permission: 3,
        },
        Call::Enter { enclave: 3 },
        Call::ReadRegister { number: 5 },
        Call::Fetch { address: 640 },
        Call::Load { address: 703 },
        Call::Load { address: 704 },
        Call::Store {
            address: 704,
            word: 0x600d_f00d,
        },
        Call::Store {
            address: 640,
            word: 0x0000_0008,
        },
        Call::Store {
            address: 1285,
            word: 0xc0ff_ee00,
        },
        Call::Fetch { address: 1280 },
        Call::WriteRegister {
            number: 5,
            word: 0x3333_4444,
        },
        Call::Open {
            enclave: 4,
            first: 0,
            count: 1,
            entrypoint: 0,
        },
        Call::Pause,
    ]
}

// The host runs while the enclave is paused, and the enclave then goes on.
fn paused() -> [Call; 14] {
    [
        Call::ReadRegister { number: 5 },
        Call::ReadMap { party: 3, page: 20 },
        Call::ReadMap { party: 3, page: 10 },
        Call::WriteMap {
            party: 0,
            page: 9,
            frame: 10,
            permission: 5,
        },
        Call::Load { address: 645 },
        Call::Load { address: 581 },
        Call::Fetch { address: 581 },
        Call::Store {
            address: 581,
            word: 0x0000_0009,
        },
        Call::Enter { enclave: 3 },
        Call::Resume { enclave: 3 },
        Call::ReadRegister { number: 5 },
        Call::Load { address: 704 },
        Call::Load { address: 1285 },
        Call::Exit,
    ]
}

// The host destroys the enclave, and finds its pages cleared.
fn after() -> [Call; 16] {
    [
        Call::Exit,
        Call::ReadRegister { number: 5 },
        Call::Resume { enclave: 3 },
        Call::Load { address: 192 },
        Call::Destroy { enclave: 3 },
        Call::Load { address: 192 },
        Call::Load { address: 128 },
        Call::Load { address: 581 },
        Call::ReadMap { party: 0, page: 3 },
        Call::ReadMap { party: 3, page: 20 },
        Call::Open {
            enclave: 8,
            first: 63,
            count: 1,
            entrypoint: 4032,
        },
        Call::Add {
            enclave: 8,
            page: 63,
            frame: 3,
            permission: 7,
        },
        Call::Destroy { enclave: 8 },
        Call::Abandon { enclave: 8 },
        Call::Load { address: 4095 },
        Call::Load { address: 4096 },
    ]
}

fn long_run(heap: Global) -> Result<Vec<u8>, AllocError> {
    let mut bytes = Vec::new(heap);
    push_records(&mut bytes, &building())?;
    push_records(&mut bytes, &inside())?;
    push_records(&mut bytes, &paused())?;
    push_records(&mut bytes, &after())?;
    Ok(bytes)
}

pub fn print_piles(rt: &HostRuntime) -> anyhow::Result<()> {
    println!(rt; "Nine records over a word memory, each line with its call:")?;
    print_run(rt, &nine_records(rt.alloc())?)?;
    println!(rt; "A life of enclave 3 and a draft of enclave 8, likewise:")?;
    print_run(rt, &long_run(rt.alloc())?)
}
