// Runs one list of reads and writes through eight piles of memories and layers, and shows that they answer alike.
#![tactic(auto)]

ghost use Rattle.std.specs.Prelude.{◌≡◌};
ghost use Rattle.memory.specs.Words.{replaced};
ghost use Rattle.scrambler.specs.Pads.{padded};

use holder::LineHolder;
use memory::{ImageMemory, Memory, WordMemory};
use scrambler::Scrambler;
use std::{fmt, io};

// The words of each memory: the last line, from the place 592 on, would pass the end.
const SIZE: usize = 600;

const BYTES: usize = 2400;

const KEY: u32 = 0x9e37_79b9;

const PILES: usize = 8;

const STEPS: usize = 18;

#[derive(Clone, Copy)]
enum Step {
    Read(usize),
    Write(usize, u32),
}

// What a step is answered: one type for reads and writes, of this program's own, so that it can be printed.
#[derive(Clone, Copy, PartialEq)]
enum Answer {
    Word(u32),
    Accepted,
    Declined(u32),
}

impl fmt::Display for Step {
    fn fmt<W: fmt::Write>(&self, f: &mut fmt::Formatter<W>) -> fmt::Result {
        match *self {
            Step::Read(place) => write!(f, "read place {place}"),
            Step::Write(place, word) => write!(f, "write {word:08x} to place {place}"),
        }
    }
}

impl fmt::Display for Answer {
    fn fmt<W: fmt::Write>(&self, f: &mut fmt::Formatter<W>) -> fmt::Result {
        match *self {
            Answer::Word(word) => write!(f, "{word:08x}"),
            Answer::Accepted => write!(f, "accepted"),
            Answer::Declined(number) => write!(f, "declined with {number}"),
        }
    }
}

// Lines 0 and 1, and the line of place 513, share slot 0; page 1 is only read; places from 592 on are never held.
fn steps() -> [Step; STEPS] {
    [
        Step::Read(3),
        Step::Write(3, 0x0000_00aa),
        Step::Read(3),
        Step::Write(20, 0x0000_00bb),
        Step::Read(3),
        Step::Read(20),
        Step::Read(70),
        Step::Write(513, 0x0000_00cc),
        Step::Read(4),
        Step::Read(513),
        Step::Read(591),
        Step::Write(599, 0x0000_00dd),
        Step::Read(599),
        Step::Write(600, 0x0000_00ee),
        Step::Read(600),
        Step::Write(3, 0xffff_ffff),
        Step::Read(3),
        Step::Read(20),
    ]
}

fn take<M: Memory>(memory: &mut M, step: Step) -> Answer {
    let answer = match step {
        Step::Read(place) => memory.read(place).map(Answer::Word),
        Step::Write(place, word) => memory.write(place, word).map(|()| Answer::Accepted),
    };
    answer.unwrap_or_else(|fault| Answer::Declined(fault.number()))
}

fn run<M: Memory>(memory: &mut M) -> [Answer; STEPS] {
    steps().map(|step| take(memory, step))
}

// Gives every memory the same words at first.
fn fill<M: Memory>(memory: &mut M) {
    for place in 0..SIZE {
        let _ = memory.write(place, (place as u32).wrapping_mul(0x0101));
    }
}

// The words as the bytes of an image, the highest first.
fn image_of(words: &[u32; SIZE]) -> [u8; BYTES] {
    let mut image = [0; BYTES];
    let (chunks, _) = image.as_chunks_mut();
    for (bytes, word) in chunks.iter_mut().zip(words) {
        *bytes = word.to_be_bytes();
    }
    image
}

// The answers of a line holder over a memory, and of a scrambler over that.
fn held<M: Memory + Drop>(below: M) -> [Answer; STEPS] {
    let mut memory = LineHolder::new(below);
    let answers = run(&mut memory);
    drop(memory.end());
    answers
}

fn scrambled_held<M: Memory + Drop>(below: M) -> [Answer; STEPS] {
    let mut memory = Scrambler::new(LineHolder::new(below), KEY);
    let answers = run(&mut memory);
    drop(memory.end().end());
    answers
}

// Writes a word through a line holder, and gives the slice back with that word in its place.
fn write_held<'a>(area: &'a mut [u32], place: usize, word: u32) -> &'a mut [u32]
    ensures { result.now ≡ replaced area.old place word }
{
    let mut memory = LineHolder::new(WordMemory::new(area));
    let _ = memory.write(place, word);
    memory.end().into_area()
}

// Writes a word through a scrambler, and gives the slice back with that word under the pad of its place.
fn write_scrambled<'a>(area: &'a mut [u32], key: u32, place: usize, word: u32) -> &'a mut [u32]
    ensures { padded key result.now ≡ replaced (padded key area.old) place word }
{
    let mut memory = Scrambler::new(WordMemory::new(area), key);
    let _ = memory.write(place, word);
    memory.end().into_area()
}

// The word at a place of a slice, or 0 past its end.
fn word_at(area: &[u32], place: usize) -> u32 {
    area.get(place).copied().unwrap_or(0)
}

fn print_answers(rt: &HostRuntime, piles: &[[Answer; STEPS]; PILES]) -> io::Result<()> {
    println!(rt; "The same {STEPS} reads and writes through {PILES} piles of {SIZE} words:")?;
    println!(rt; "  1 word memory, 2 image memory, 3 scrambler over 1, 4 scrambler over 2,")?;
    println!(rt;
        "  5 line holder over 1, 6 line holder over 2, 7 line holder over 4, 8 scrambler over 5"
    )?;
    let [first, ..] = piles;
    for (i, (step, answer)) in steps().iter().zip(first).enumerate() {
        let count = piles.iter().filter(|answers| answers[i] == *answer).count();
        println!(rt; "{step}: {answer}, from {count} of {PILES}")?;
    }
    Ok(())
}

// The word at a place of the slice of each pile.
fn print_words(rt: &HostRuntime, areas: &[[u32; SIZE]; PILES], place: usize) -> io::Result<()> {
    for (pile, area) in (1..=PILES).zip(areas) {
        let word = word_at(area, place);
        println!(rt; "  pile {pile}: {word:08x}")?;
    }
    Ok(())
}

fn print_ways_back(rt: &HostRuntime) -> io::Result<()> {
    let mut area = [0u32; 64];
    let word = word_at(write_held(&mut area, 33, 0x0000_00aa), 33);
    println!(rt;
        "Place 33 of a slice after 000000aa was written through a line holder: {word:08x}"
    )?;
    let word = word_at(write_scrambled(&mut area, 1, 33, 0), 33);
    println!(rt;
        "and after 0 was written through a scrambler with key 1, so that the pad shows: {word:08x}"
    )
}

fn main(rt: HostRuntime) -> io::Result<()> {
    let mut plain = [0u32; SIZE];
    fill(&mut WordMemory::new(&mut plain));
    let mut padded = [0u32; SIZE];
    fill(&mut Scrambler::new(WordMemory::new(&mut padded), KEY));
    let plain_image = image_of(&plain);
    let padded_image = image_of(&padded);

    let blank = [0; SIZE];
    let mut areas = [plain, blank, padded, blank, plain, blank, blank, padded];
    let piles = [
        run(&mut WordMemory::new(&mut areas[0])),
        run(&mut ImageMemory::new(&plain_image, &mut areas[1])),
        run(&mut Scrambler::new(WordMemory::new(&mut areas[2]), KEY)),
        run(&mut Scrambler::new(ImageMemory::new(&padded_image, &mut areas[3]), KEY)),
        held(WordMemory::new(&mut areas[4])),
        held(ImageMemory::new(&plain_image, &mut areas[5])),
        held(Scrambler::new(ImageMemory::new(&padded_image, &mut areas[6]), KEY)),
        scrambled_held(WordMemory::new(&mut areas[7])),
    ];
    print_answers(&rt, &piles)?;
    println!(rt; "Place 3 of the slices afterwards:")?;
    print_words(&rt, &areas, 3)?;
    println!(rt;
        "Place 70, on a page that was only read. A held line is written down, changed or not,"
    )?;
    println!(rt; "so the area of an image memory has the page below a line holder, and else not:")?;
    print_words(&rt, &areas, 70)?;
    print_ways_back(&rt)
}
