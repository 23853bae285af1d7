use binary::Binary;
use cover::cover;
use encoder::Encoder;
use fault::{Fault, Layer, Refusal};
use formula::{Size, complete, measure, write};
use layers::{Commander, Tower};
use network::{Open, Sealed};
use pairwise::Pairwise;
use sequential::Sequential;
use std::process::Abort;

// The network of the tests has 16 variables, so its first auxiliary may be 17.
const FIRST: i32 = 17;

const LAST: i32 = 1_000_000_000;

// 3 of the clique, 9 of side A, -1 and -14 of the conflicts that remain.
const VALUES: [u8; 16] = [0, 0, 1, 0, 0, 0, 0, 0, 1, 0, 0, 0, 0, 0, 1, 0];

// Adds a clique of eight, a biclique of two against three, and two conflicts that remain.
fn fill(net: &mut Open) {
    for a in 1..9 {
        for b in a + 1..9 {
            let _ = net.add(a, b);
        }
    }
    for a in 9..11 {
        for b in 11..14 {
            let _ = net.add(a, b);
        }
    }
    let _ = net.add(-14, -15);
    let _ = net.add(16, -1);
}

// A fault of the formula layer.
fn declined(refusal: Refusal) -> Fault {
    Fault::new(Layer::Formula, refusal)
}

// Whether a literal is true, with the auxiliaries numbered from `first` on.
fn is_true(values: &[u8], bytes: &[u8], first: usize, a: i32) -> bool {
    let variable = a.unsigned_abs() as usize;
    let mut value = 0;
    if variable >= 1 && variable <= values.len() {
        value = values[variable - 1];
    }
    if variable >= first && variable - first < bytes.len() {
        value = bytes[variable - first];
    }
    (value == 1) == (a > 0)
}

// Checks that each of so many clauses has a true literal.
fn are_met(rt: &impl Abort, out: &[i32; 80], clauses: usize, bytes: &[u8], first: usize) {
    assert!(rt; clauses < 40);
    for clause in out[..2 * clauses].chunks_exact(2) {
        assert!(rt; clause.iter().any(|a| is_true(&VALUES, bytes, first, *a)));
    }
    assert!(rt; out[2 * clauses] == 7);
}

// Measures, writes and completes: so many clauses and auxiliaries, all clauses met, and no more of the buffers touched.
fn agrees<E: Encoder>(
    rt: &impl Abort,
    encoder: &E,
    first: u16,
    clauses: usize,
    auxiliaries: usize,
) {
    let mut words = [0u64; 32];
    let mut work = [0u64; 32];
    let mut list = [0i32; 16];
    let mut out = [7i32; 80];
    let mut bytes = [7u8; 10];
    let mut net = Open::open(16, &mut words);
    fill(&mut net);
    let net = net.seal();
    let size = Size {
        clauses,
        auxiliaries,
    };
    let from = first as i32;
    assert_eq!(rt;
        measure(&net, encoder, from, LAST, &mut work, &mut list),
        Ok(size)
    );
    assert_eq!(rt;
        write(&net, encoder, from, LAST, &mut work, &mut list, &mut out),
        Ok(size)
    );
    assert_eq!(rt;
        complete(
            &net, encoder, from, LAST, &VALUES, &mut work, &mut list, &mut bytes,
        ),
        Ok(auxiliaries)
    );
    are_met(rt, &out, clauses, &bytes, first as usize);
    assert!(rt; auxiliaries < 10);
    assert!(rt; bytes[auxiliaries] == 7);
}

#[test]
fn every_encoder(rt: HostRuntime) {
    agrees(&rt, &Pairwise, 17, 35, 1);
    agrees(&rt, &Binary, 17, 31, 4);
    agrees(&rt, &Sequential, 17, 27, 8);
    agrees(&rt, &Commander::new(3, Pairwise, Binary), 17, 28, 6);
    agrees(&rt, &Tower, 60_000, 25, 4);
}

// Checks that write and complete both answer the fault, and leave their buffers as they were.
fn both_declined(
    rt: &impl Abort,
    net: &Sealed,
    last: i32,
    work: &mut [u64],
    list: &mut [i32],
    room: usize,
    fault: Fault,
) {
    let mut out = [7i32; 50];
    let mut bytes = [7u8; 4];
    assert!(rt; room < 5);
    let r = write(net, &Tower, FIRST, last, work, list, &mut out[0..10 * room]);
    assert_eq!(rt; r, Err(fault));
    let r = complete(
        net,
        &Tower,
        FIRST,
        last,
        &VALUES,
        work,
        list,
        &mut bytes[0..room],
    );
    assert_eq!(rt; r, Err(fault));
    assert!(rt; out == [7; 50]);
    assert!(rt; bytes == [7; 4]);
}

#[test]
fn the_cover_is_refused(rt: HostRuntime) {
    let mut words = [0u64; 32];
    let mut net = Open::open(16, &mut words);
    fill(&mut net);
    let net = net.seal();
    let short = Fault::new(Layer::Network, Refusal::WordsShort);
    let mut few = [5u64; 31];
    let mut list = [5i32; 15];
    both_declined(&rt, &net, 0, &mut few, &mut list, 4, short);
    assert_eq!(rt;
        measure(&net, &Tower, 0, LAST, &mut few, &mut list),
        Err(short)
    );
    assert!(rt; few == [5; 31] && list == [5; 15]);
    let full = Fault::new(Layer::Cover, Refusal::PartListShort);
    let mut work = [5u64; 33];
    both_declined(&rt, &net, LAST, &mut work, &mut list, 0, full);
    assert!(rt; list == [0; 15] && work[0] == 0 && work[31] == 0 && work[32] == 5);
}

#[test]
fn numbers_that_will_not_do(rt: HostRuntime) {
    let mut words = [0u64; 32];
    let net = Open::open(16, &mut words).seal();
    let unfit = declined(Refusal::AuxiliaryRange);
    let mut work = [5u64; 32];
    let mut list = [5i32; 2];
    both_declined(&rt, &net, 15, &mut work, &mut list, 4, unfit);
    both_declined(&rt, &net, LAST + 1, &mut work, &mut list, 4, unfit);
    assert_eq!(rt;
        measure(&net, &Tower, 16, LAST, &mut work, &mut list),
        Err(unfit)
    );
    assert!(rt; work == [5; 32] && list == [5; 2]);
    let none = Size {
        clauses: 0,
        auxiliaries: 0,
    };
    assert_eq!(rt;
        measure(&net, &Tower, FIRST, 16, &mut work, &mut list),
        Ok(none)
    );
}

#[test]
fn values_that_will_not_do(rt: HostRuntime) {
    let mut words = [0u64; 32];
    let mut work = [5u64; 32];
    let mut list = [5i32; 1];
    let mut bytes = [7u8; 1];
    let net = Open::open(16, &mut words).seal();
    let unfit = Err(declined(Refusal::UnfitValues));
    let no_bit = [0, 0, 0, 0, 0, 0, 0, 0, 0, 0, 0, 0, 0, 0, 0, 2];
    assert_eq!(rt;
        complete(
            &net,
            &Tower,
            FIRST,
            LAST,
            &VALUES[0..15],
            &mut work,
            &mut list,
            &mut bytes,
        ),
        unfit
    );
    assert_eq!(rt;
        complete(
            &net, &Tower, FIRST, LAST, &[0; 17], &mut work, &mut list, &mut bytes,
        ),
        unfit
    );
    assert_eq!(rt;
        complete(
            &net, &Tower, FIRST, LAST, &no_bit, &mut work, &mut list, &mut bytes,
        ),
        unfit
    );
    assert!(rt; work == [5; 32] && list == [5; 1] && bytes == [7; 1]);
    assert_eq!(rt;
        complete(
            &net, &Tower, FIRST, LAST, &[1; 16], &mut work, &mut list, &mut bytes,
        ),
        Ok(0)
    );
    assert!(rt; work == [0; 32] && list == [0; 1] && bytes == [7; 1]);
}

#[test]
fn auxiliaries_and_room_run_out(rt: HostRuntime) {
    let mut words = [0u64; 32];
    let mut net = Open::open(16, &mut words);
    fill(&mut net);
    let net = net.seal();
    let mut work = [5u64; 32];
    let mut list = [5i32; 17];
    both_declined(
        &rt,
        &net,
        16,
        &mut work,
        &mut list,
        0,
        declined(Refusal::AuxiliariesExhausted),
    );
    both_declined(
        &rt,
        &net,
        19,
        &mut work,
        &mut list,
        4,
        declined(Refusal::AuxiliariesExhausted),
    );
    both_declined(
        &rt,
        &net,
        20,
        &mut work,
        &mut list,
        3,
        declined(Refusal::BufferShort),
    );
    let mut fresh = [5u64; 32];
    let mut parts = [5i32; 17];
    let _ = cover(&net, &mut fresh, &mut parts);
    assert!(rt; work == fresh && list == parts);
    let mut out = [7i32; 50];
    let size = Size {
        clauses: 25,
        auxiliaries: 4,
    };
    assert_eq!(rt;
        write(&net, &Tower, FIRST, 20, &mut work, &mut list, &mut out),
        Ok(size)
    );
    assert_eq!(rt;
        write(
            &net,
            &Tower,
            FIRST,
            20,
            &mut work,
            &mut list,
            &mut out[0..49],
        ),
        Err(declined(Refusal::BufferShort))
    );
}

// Completes with two more variables true.
fn broken_by(net: &Sealed, v: usize, w: usize) -> Result<usize, Fault> {
    let mut work = [0u64; 32];
    let mut list = [0i32; 16];
    let mut bytes = [7u8; 4];
    let mut values = VALUES;
    if v < 16 && w < 16 {
        values[v] = 1;
        values[w] = 1;
    }
    complete(
        net, &Tower, FIRST, LAST, &values, &mut work, &mut list, &mut bytes,
    )
}

#[test]
fn the_first_broken_conflict(rt: HostRuntime) {
    let mut words = [0u64; 32];
    let mut net = Open::open(16, &mut words);
    fill(&mut net);
    let net = net.seal();
    assert_eq!(rt;
        broken_by(&net, 7, 15),
        Err(declined(Refusal::BrokenConflict(-1, 16)))
    );
    assert_eq!(rt;
        broken_by(&net, 7, 12),
        Err(declined(Refusal::BrokenConflict(3, 8)))
    );
    assert_eq!(rt;
        broken_by(&net, 1, 7),
        Err(declined(Refusal::BrokenConflict(2, 3)))
    );
    assert_eq!(rt;
        broken_by(&net, 12, 11),
        Err(declined(Refusal::BrokenConflict(9, 12)))
    );
    assert_eq!(rt; broken_by(&net, 9, 9), Ok(4));
}
