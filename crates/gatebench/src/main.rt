// Times the gate over a word memory: loads and stores of the host, and whole lives of an enclave of 32 pages.
#![tactic(auto)]

use digest::Digest;
use memory::{Memory, WordMemory};
use monitor::Monitor;
use sha256::Sha256;
use std::env;
use std::time::Instant;

// Stores and loads a word at each of 2,048 addresses, in each of the rounds; answers a sum that depends on all of them.
fn accesses<M: Memory, D: Digest>(monitor: &mut Monitor<M, D>, rounds: u32) -> u32 {
    let mut sum = 0u32;
    for round in 0..rounds {
        for address in 0..2048u16 {
            let _ = monitor.store(address, round ^ u32::from(address));
            if let Ok(word) = monitor.load(address) {
                sum = sum.wrapping_add(word);
            }
        }
    }
    sum
}

// Builds an enclave of pages 32 to 63, finishes and destroys it, once for each of the rounds; counts the lives.
fn lives<M: Memory, D: Digest>(monitor: &mut Monitor<M, D>, rounds: u32) -> u32 {
    let mut whole = 0u32;
    for _ in 0..rounds {
        let _ = monitor.open(1, 32, 32, 2048);
        for page in 32..64u8 {
            let _ = monitor.add(1, page, page, 5);
        }
        if monitor.finish(1).is_ok() && monitor.destroy(1).is_ok() {
            whole = whole.wrapping_add(1);
        }
    }
    whole
}

// Maps every virtual page of the host to the frame of its number, to read and write.
fn map_all<M: Memory, D: Digest>(monitor: &mut Monitor<M, D>) {
    for page in 0..64u8 {
        let _ = monitor.write_map(0, page, page, 3);
    }
}

fn asked(rt: &HostRuntime) -> anyhow::Result<u32> {
    let rounds = env::args(rt)?.nth(1).map_or(Ok(2), |text| text.parse())?;
    Ok(rounds)
}

// Times what `work` does. What was done goes to the standard output, its milliseconds to the standard error. The same as in
// `membench`, since a crate for these lines alone is no plainer.
fn timed<F: FnOnce() -> u32>(rt: &HostRuntime, what: &str, work: F) -> anyhow::Result<()>
    requires { F.pre work }
{
    let start = Instant::now(rt)?;
    let res = work();
    let elapsed = start.elapsed(rt)?.as_millis();
    println!(rt; "{what}: {res:08x}")?;
    eprintln!(rt; "{what}: {elapsed} ms")?;
    Ok(())
}

fn main(rt: HostRuntime) -> anyhow::Result<()> {
    let mut words = [0u32; 4096];
    let mut monitor = Monitor::new(WordMemory::new(&mut words), Sha256::new(), [0; 8]);
    let rounds = asked(&rt)?;
    map_all(&mut monitor);
    timed(&rt, "sum of rounds of 2048 stores and loads", || {
        accesses(&mut monitor, rounds)
    })?;
    timed(&rt, "lives of 32 pages", || lives(&mut monitor, rounds))
}
