// Covers a network that it builds itself, and prints what came of it; the seconds that the cover took go to standard error.
// Usage: cover_bench KIND N SEED, where KIND is sparse, timetable or dense. bench/cover.cpp builds the same networks.
#![tactic(auto)]

mod networks;

use anyhow::anyhow;
use cover::cover;
use network::{Open, fits};
use networks::{Kind, Network, Random};
use std::env;
use std::time::Instant;

// The words of a row are at most 128, so no network needs more.
const MOST_WORDS: usize = 1_048_576;

const LIST: usize = 4_000_000;

fn run(rt: &HostRuntime, kind: Kind, n: usize, seed: u64) -> anyhow::Result<()> {
    let heap = rt.alloc();
    let Ok(needed) = fits(n, MOST_WORDS) else {
        return Err(anyhow!("a network has 1 to 4096 variables"));
    };
    let mut words = vec![in heap; 0u64; needed]?;
    let mut work = vec![in heap; 0u64; needed]?;
    let mut list = vec![in heap; 0i32; LIST]?;
    let mut network = Network {
        net: Open::open(n, words.as_mut_slice()),
        conflicts: 0,
        random: Random { state: seed },
    };
    network.fill(heap, kind, n)?;
    let Network { net, conflicts, .. } = network;
    let net = net.seal();
    let start = Instant::now(rt)?;
    let Ok(covered) = cover(&net, work.as_mut_slice(), list.as_mut_slice()) else {
        return Err(anyhow!("the list is too short"));
    };
    let seconds = start.elapsed(rt)?.as_micros();
    let cliques = covered.cliques;
    let bicliques = covered.bicliques;
    let remaining = covered.remaining;
    let used = covered.used;
    println!(rt;
        "{conflicts} conflicts: {cliques} cliques, {bicliques} bicliques, {remaining} remaining, {used} numbers"
    )?;
    let whole = seconds / 1_000_000;
    let thousandths = seconds % 1_000_000 / 1_000;
    eprintln!(rt; "{whole}.{thousandths:03}")?;
    Ok(())
}

fn main(rt: HostRuntime) -> anyhow::Result<()> {
    let mut args = env::args(&rt)?.skip(1);
    let (Some(kind), Some(n), Some(seed)) = (args.next(), args.next(), args.next()) else {
        return Err(anyhow!("usage: cover_bench KIND N SEED"));
    };
    run(
        &rt,
        Kind::from(kind.as_str()),
        n.as_str().parse::<usize>()?,
        seed.as_str().parse::<u64>()?,
    )
}
