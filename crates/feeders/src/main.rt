// A client of `compact`: sixteen feeders hand in the conflicts of a timetable, in any order and more than once.
//
// For each file that an argument names it writes many variants that say the same: the pair clauses are dealt out to the
// feeders, come back in other orders, repeated and turned round, spread over lines and comments; all other clauses keep their order.
// It runs `compact` on each, and prints whether they all give what the file gives.
#![tactic(auto)]

mod feeding;
mod generator;
mod sheet;
mod trial;

use std::{env, fs, io};
use trial::try_variants;

fn show(rt: &HostRuntime, path: &str) -> io::Result<()> {
    let text = fs::read_to_string(rt, path)?;
    let trial = try_variants(rt.alloc(), text.as_str())?;
    println!(rt; "{path}: {trial}")
}

fn main(rt: HostRuntime) -> io::Result<()> {
    for path in env::args(&rt)?.skip(1) {
        show(&rt, path.as_str())?;
    }
    Ok(())
}
