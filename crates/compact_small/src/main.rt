// Reads a DIMACS file from standard input, and prints the equivalent file with its conflicts written short, or the fault that it has.
#![tactic(auto)]

use compaction::{Scale, compact};
use std::io;
use std::io::{Read, Write};

fn main(rt: HostRuntime) -> io::Result<()> {
    let mut text = Vec::new(rt.alloc());
    // one byte past the limit tells that there are too many
    let most = Scale::Small.most_bytes() as u64;
    let _ = rt.stdin().take(most + 1).read_to_end(&mut text)?;
    let output = compact(rt.alloc(), Scale::Small, text.as_slice())?;
    rt.stdout().write_all(output.as_slice())
}
