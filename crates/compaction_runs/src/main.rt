// Prints what `compaction::compact` prints for each file that an argument names.
// `compact_runs` does the same over `compactor`.
#![tactic(auto)]

use compaction::{Scale, compact};
use std::io::Write;
use std::{env, fs, io};

fn show(rt: &HostRuntime, path: &str) -> io::Result<()> {
    let text = fs::read(rt, path)?;
    let output = compact(rt.alloc(), Scale::Small, text.as_slice())?;
    println!(rt; "{path}")?;
    rt.stdout().write_all(output.as_slice())
}

fn main(rt: HostRuntime) -> io::Result<()> {
    for path in env::args(&rt)?.skip(1) {
        show(&rt, path.as_str())?;
    }
    Ok(())
}
