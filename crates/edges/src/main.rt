// Runs files at the edges of what a file of records may be, and prints what comes of each.
#![tactic(auto)]

mod calls;
mod cuts;
mod lengths;
mod logging;
mod piles;
mod writing;

use cuts::print_cuts;
use lengths::print_lengths;
use piles::print_piles;
use writing::print_writing;

fn main(rt: HostRuntime) -> anyhow::Result<()> {
    print_lengths(&rt)?;
    print_cuts(&rt)?;
    print_writing(&rt)?;
    print_piles(&rt)
}
