// Prints the numbers of clauses and auxiliaries of several encoders and piles side by side:
// a column for each number of members, a row for each encoder, in each cell the clauses and then the auxiliaries.
#![tactic(auto)]

use binary::Binary;
use encoder::Encoder;
use layers::{Commander, Tower};
use pairwise::Pairwise;
use sequential::Sequential;
use std::io;

// The numbers of members; an encoder takes at most 256.
const SIZES: [usize; 10] = [1, 5, 6, 7, 10, 16, 17, 100, 256, 257];

// The row of an encoder; a dash where it declines.
fn show<E: Encoder>(rt: &HostRuntime, encoder: &E, name: &str) -> io::Result<()> {
    for members in SIZES {
        match (encoder.clauses(members), encoder.auxiliaries(members)) {
            (Ok(clauses), Ok(auxiliaries)) => print!(rt; "{clauses:>6}{auxiliaries:>4} ")?,
            _ => print!(rt; "     -   - ")?,
        }
    }
    println!(rt; " {name}")
}

fn main(rt: HostRuntime) -> io::Result<()> {
    for members in SIZES {
        print!(rt; "{members:>10} ")?;
    }
    println!(rt; " members")?;
    show(&rt, &Pairwise, "pairwise")?;
    show(&rt, &Binary, "binary")?;
    show(&rt, &Sequential, "sequential")?;
    show(&rt, &Tower, "tower")?;
    let over_binary = Commander::new(3, Pairwise, Binary);
    show(&rt, &over_binary, "commander of 3, pairwise under binary")?;
    let over_tower = Commander::new(2, Pairwise, Tower);
    show(&rt, &over_tower, "commander of 2, pairwise under tower")?;
    let wide = Commander::new(16, Sequential, Pairwise);
    show(&rt, &wide, "commander of 16, sequential under pairwise")?;
    let pile = Commander::new(4, Tower, over_binary);
    show(&rt, &pile, "commander of 4, tower under the commander of 3")
}
