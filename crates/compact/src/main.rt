// Reads a DIMACS file from standard input, and prints its clauses, or the fault that it has.
#![tactic(auto)]

use compactor::{MAX_BYTES, compact};
use std::io;
use std::io::{Read, Write};

fn main(rt: HostRuntime) -> io::Result<()> {
    let mut text = Vec::new(rt.alloc());
    // one byte past the limit tells that there are too many
    let _ = rt
        .stdin()
        .take(MAX_BYTES as u64 + 1)
        .read_to_end(&mut text)?;
    let output = compact(rt.alloc(), text.as_slice())?;
    rt.stdout().write_all(output.as_slice())
}
