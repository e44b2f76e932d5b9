// Times reads and writes: word memory, a scrambler over it, and a line holder over that.
#![tactic(auto)]

use holder::LineHolder;
use memory::{Memory, WordMemory};
use scrambler::Scrambler;
use std::env;
use std::time::Instant;

const KEY: u32 = 0x9e37_79b9;

// How often the places are gone through, and how far each lies from the one before.
#[derive(Clone, Copy)]
struct Load {
    rounds: u32,
    stride: u32,
}

// Reads and writes a word at each of 1,024 steps of each round, and answers a sum that depends on all of them.
fn turn<M: Memory>(memory: &mut M, load: Load) -> u32 {
    let mut sum = 0u32;
    for round in 0..load.rounds {
        for step in 0..1024usize {
            let place = step * load.stride as usize % 1024;
            if let Ok(word) = memory.read(place) {
                sum = sum.wrapping_add(word);
                let _ = memory.write(place, word ^ round);
            }
        }
    }
    sum
}

fn words(area: &mut [u32], load: Load) -> u32 {
    turn(&mut WordMemory::new(area), load)
}

fn scrambled(area: &mut [u32], load: Load) -> u32 {
    turn(&mut Scrambler::new(WordMemory::new(area), KEY), load)
}

fn held(area: &mut [u32], load: Load) -> u32 {
    let mut memory = LineHolder::new(Scrambler::new(WordMemory::new(area), KEY));
    let sum = turn(&mut memory, load);
    drop(memory.end());
    sum
}

// The program's two arguments: the rounds, of 2,048 accesses each, and the stride. Without them, 2 rounds by rising places.
fn asked(rt: &HostRuntime) -> anyhow::Result<Load> {
    let mut args = env::args(rt)?.skip(1);
    let rounds = args.next().map_or(Ok(2), |text| text.parse())?;
    let stride = args.next().map_or(Ok(1), |text| text.parse())?;
    Ok(Load { rounds, stride })
}

// The sum of a run goes to the standard output, its milliseconds to the standard error.
fn timed<F: FnOnce() -> u32>(rt: &HostRuntime, what: &str, run: F) -> anyhow::Result<()>
    requires { F.pre run }
{
    let start = Instant::now(rt)?;
    let sum = run();
    let time = start.elapsed(rt)?.as_millis();
    println!(rt; "{what}: {sum:08x}")?;
    eprintln!(rt; "{what}: {time} ms")?;
    Ok(())
}

fn main(rt: HostRuntime) -> anyhow::Result<()> {
    let load = asked(&rt)?;
    let Load { rounds, stride } = load;
    println!(rt; "{rounds} rounds of 2048 accesses, stride {stride}")?;
    timed(&rt, "word memory", || words(&mut [0; 1024], load))?;
    timed(
        &rt,
        "scrambler over word memory",
        || scrambled(&mut [0; 1024], load),
    )?;
    timed(
        &rt,
        "line holder over scrambler over word memory",
        || held(&mut [0; 1024], load),
    )
}
