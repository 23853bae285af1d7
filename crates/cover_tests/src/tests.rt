use cover::{Covered, Part, Parts, cover, part_at};
use fault::{Fault, Layer, Refusal};
use network::Open;
use std::test::Fail;

fn counts(
    cliques: usize,
    bicliques: usize,
    remaining: usize,
    used: usize,
) -> Result<Covered, Fault> {
    Ok(Covered {
        cliques,
        bicliques,
        remaining,
        used,
    })
}

fn refused(refusal: Refusal, layer: Layer) -> Result<Covered, Fault> {
    Err(Fault::new(layer, refusal))
}

// Adds every conflict between the literals from `from` up to, and without, `to`.
fn add_clique(net: &mut Open, from: i32, to: i32) {
    for a in from..to {
        for b in a + 1..to {
            let _ = net.add(a, b);
        }
    }
}

// Adds every conflict of a literal of a..b with one of c..d.
fn add_biclique(net: &mut Open, a: i32, b: i32, c: i32, d: i32) {
    for x in a..b {
        for y in c..d {
            let _ = net.add(x, y);
        }
    }
}

#[test]
fn no_variables_and_one(rt: HostRuntime) {
    let mut words = [7u64; 2];
    let mut work = [9u64; 3];
    let mut list = [5i32; 2];
    let none = Open::open(0, &mut words).seal();
    assert_eq!(rt; cover(&none, &mut work, &mut list), counts(0, 0, 0, 0));
    assert!(rt; list == [0, 0]);
    assert!(rt; work == [9, 9, 9]);
    let mut words = [7u64; 2];
    let one = Open::open(1, &mut words).seal();
    assert_eq!(rt; cover(&one, &mut work, &mut list), counts(0, 0, 0, 0));
    assert!(rt; work == [0, 0, 9]);
}

#[test]
fn work_words_too_few(rt: HostRuntime) {
    let mut words = [0u64; 12];
    let mut work = [3u64; 11];
    let mut list = [5i32; 2];
    let mut net = Open::open(6, &mut words);
    add_clique(&mut net, 1, 7);
    assert_eq!(rt;
        cover(&net.seal(), &mut work, &mut list),
        refused(Refusal::WordsShort, Layer::Network)
    );
    assert!(rt; work == [3; 11]);
    assert!(rt; list == [5, 5]);
}

#[test]
fn five_make_a_biclique_whose_side_takes_in_a_literal(rt: HostRuntime) {
    let mut words = [0u64; 10];
    let mut work = [0u64; 10];
    let mut list = [5i32; 8];
    let mut net = Open::open(5, &mut words);
    add_clique(&mut net, 1, 6);
    assert_eq!(rt;
        cover(&net.seal(), &mut work, &mut list),
        counts(0, 1, 4, 7)
    );
    assert!(rt; list == [-2, 3, 1, 2, 3, 4, 5, 0]);
    assert_eq!(rt;
        part_at(&list, 0),
        Some(Part::Biclique {
            at: 2,
            left: 2,
            right: 3,
        })
    );
    assert_eq!(rt; part_at(&list, 7), None);
}

#[test]
fn six_make_a_clique(rt: HostRuntime) {
    let mut words = [0u64; 12];
    let mut work = [9u64; 13];
    let mut list = [5i32; 7];
    let mut net = Open::open(6, &mut words);
    add_clique(&mut net, 1, 7);
    let net = net.seal();
    assert_eq!(rt; cover(&net, &mut work, &mut list), counts(1, 0, 0, 7));
    assert!(rt; list == [6, 1, 2, 3, 4, 5, 6]);
    assert_eq!(rt; part_at(&list, 0), Some(Part::Clique { at: 1, size: 6 }));
    let mut short = [5i32; 6];
    assert_eq!(rt;
        cover(&net, &mut work, &mut short),
        refused(Refusal::PartListShort, Layer::Cover)
    );
    assert!(rt; short == [0; 6]);
    assert!(rt; work == [0, 0, 0, 0, 0, 0, 0, 0, 0, 0, 0, 0, 9]);
}

#[test]
fn the_largest_clique(rt: HostRuntime) {
    let mut words = [0u64; 4626];
    let mut work = [0u64; 4626];
    let mut list = [5i32; 300];
    let mut net = Open::open(257, &mut words);
    add_clique(&mut net, 1, 257);
    assert_eq!(rt;
        cover(&net.seal(), &mut work, &mut list),
        counts(1, 0, 0, 257)
    );
    let mut net = Open::open(257, &mut words);
    add_clique(&mut net, 1, 258);
    assert_eq!(rt;
        cover(&net.seal(), &mut work, &mut list),
        counts(1, 0, 256, 257)
    );
    assert!(rt; list[0] == 256 && list[256] == 256 && list[257] == 0);
}

#[test]
fn two_against_two_and_three(rt: HostRuntime) {
    let mut words = [0u64; 10];
    let mut work = [0u64; 10];
    let mut list = [5i32; 7];
    let mut net = Open::open(4, &mut words);
    add_biclique(&mut net, 1, 3, 3, 5);
    assert_eq!(rt;
        cover(&net.seal(), &mut work, &mut list),
        counts(0, 0, 4, 0)
    );
    let mut net = Open::open(5, &mut words);
    add_biclique(&mut net, 1, 3, 3, 6);
    assert_eq!(rt;
        cover(&net.seal(), &mut work, &mut list),
        counts(0, 1, 0, 7)
    );
    assert!(rt; list == [-2, 3, 1, 2, 3, 4, 5]);
}

#[test]
fn the_lowest_at_ties(rt: HostRuntime) {
    let mut words = [0u64; 20];
    let mut work = [0u64; 20];
    let mut list = [5i32; 14];
    let mut net = Open::open(10, &mut words);
    add_biclique(&mut net, 6, 8, 8, 11);
    add_biclique(&mut net, 1, 3, 3, 6);
    assert_eq!(rt;
        cover(&net.seal(), &mut work, &mut list),
        counts(0, 2, 0, 14)
    );
    assert!(rt; list == [-2, 3, 1, 2, 3, 4, 5, -2, 3, 6, 7, 8, 9, 10]);
    let mut parts = Parts::new(&list);
    for at in [2, 9] {
        assert_eq!(rt;
            parts.next(),
            Some(Part::Biclique {
                at,
                left: 2,
                right: 3,
            })
        );
    }
    assert_eq!(rt; parts.next(), None);
}

#[test]
fn a_clique_that_another_takes_apart(rt: HostRuntime) -> Result<(), Fail> {
    let mut words = [0u64; 20];
    let mut work = [0u64; 20];
    let mut list = [5i32; 40];
    let mut net = Open::open(10, &mut words);
    add_clique(&mut net, 1, 7);
    add_clique(&mut net, 7, 11);
    add_biclique(&mut net, 1, 3, 7, 11);
    let r = cover(&net.seal(), &mut work, &mut list);
    assert!(rt; list[0] == 6);
    match r {
        Ok(counted) => {
            assert_eq!(rt; counted.cliques, 1);
            Ok(())
        },
        Err(fault) => {
            assert_eq!(rt; fault.place, 1);
            Ok(())
        },
    }
}

#[test]
fn an_empty_and_a_complete_network(rt: HostRuntime) {
    let mut words = [0u64; 6];
    let mut work = [9u64; 6];
    let mut list = [5i32; 9];
    assert_eq!(rt;
        cover(&Open::open(3, &mut words).seal(), &mut work, &mut list),
        counts(0, 0, 0, 0)
    );
    assert!(rt; work == [0; 6]);
    let mut net = Open::open(3, &mut words);
    for a in -3..4 {
        for b in -3..4 {
            let _ = net.add(a, b);
        }
    }
    assert_eq!(rt;
        cover(&net.seal(), &mut work, &mut list),
        counts(0, 1, 4, 8)
    );
    assert!(rt; list == [-2, 4, 1, -1, 2, -2, 3, -3, 0]);
    assert!(rt; work == [0, 0, 48, 48, 12, 12]);
}
