// Reads a large DIMACS file from standard input, and prints the equivalent file with its conflicts written short, or the fault that it has;
// where it printed a file, it tells the account of the compaction on standard error.
#![tactic(auto)]

use compaction::{Scale, compact_with_account};
use std::io;
use std::io::{Read, Write};

fn main(rt: HostRuntime) -> io::Result<()> {
    let mut text = Vec::new(rt.alloc());
    // one byte past the limit tells that there are too many
    let most = Scale::Large.most_bytes() as u64;
    let _ = rt.stdin().take(most + 1).read_to_end(&mut text)?;
    let output = compact_with_account(rt.alloc(), Scale::Large, text.as_slice())?;
    rt.stdout().write_all(output.bytes.as_slice())?;
    match output.account {
        Some(account) => eprintln!(rt; "{account}"),
        None => Ok(()),
    }
}
