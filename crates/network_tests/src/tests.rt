use super::fed_by_hand;
use fault::{Fault, Layer, Refusal};
use network::{Call, Open, feed, fits};
use std::test::Fail;

fn refused(refusal: Refusal) -> Fault {
    Fault::new(Layer::Network, refusal)
}

#[test]
fn sizes_at_their_edges(rt: HostRuntime) {
    assert_eq!(rt; fits(0, 0), Err(refused(Refusal::VariableCount)));
    assert_eq!(rt; fits(0, 1_000_000), Err(refused(Refusal::VariableCount)));
    assert_eq!(rt; fits(1, 1), Err(refused(Refusal::WordsShort)));
    assert_eq!(rt; fits(1, 2), Ok(2));
    assert_eq!(rt; fits(32, 64), Ok(64));
    assert_eq!(rt; fits(33, 131), Err(refused(Refusal::WordsShort)));
    assert_eq!(rt; fits(33, 132), Ok(132));
    assert_eq!(rt; fits(4096, 1_048_575), Err(refused(Refusal::WordsShort)));
    assert_eq!(rt; fits(4096, 1_048_576), Ok(1_048_576));
    assert_eq!(rt;
        fits(4097, usize::MAX),
        Err(refused(Refusal::VariableCount))
    );
    assert_eq!(rt;
        fits(usize::MAX, usize::MAX),
        Err(refused(Refusal::VariableCount))
    );
}

#[test]
fn literals_at_their_edges(rt: HostRuntime) {
    let mut words = [0u64; 6];
    let mut net = Open::open(3, &mut words);
    let out_of_range = Err(refused(Refusal::LiteralOutOfRange));
    assert_eq!(rt; net.add(0, 1), out_of_range);
    assert_eq!(rt; net.add(1, 0), out_of_range);
    assert_eq!(rt; net.add(4, 1), out_of_range);
    assert_eq!(rt; net.add(1, -4), out_of_range);
    assert_eq!(rt; net.add(i32::MIN, 1), out_of_range);
    assert_eq!(rt; net.add(1, i32::MIN), out_of_range);
    assert_eq!(rt; net.add(i32::MAX, 1), out_of_range);
    assert_eq!(rt; net.add(3, 1), Ok(true));
    assert_eq!(rt; net.add(-3, -1), Ok(true));
}

#[test]
fn refusals_in_their_order(rt: HostRuntime) {
    let mut words = [0u64; 6];
    let mut net = Open::open(3, &mut words);
    assert_eq!(rt; net.add(0, 0), Err(refused(Refusal::LiteralOutOfRange)));
    assert_eq!(rt; net.add(4, -4), Err(refused(Refusal::LiteralOutOfRange)));
    assert_eq!(rt;
        net.add(i32::MIN, i32::MIN),
        Err(refused(Refusal::LiteralOutOfRange))
    );
    assert_eq!(rt; net.add(3, 3), Err(refused(Refusal::RepeatedLiteral)));
    assert_eq!(rt; net.add(-3, -3), Err(refused(Refusal::RepeatedLiteral)));
    assert_eq!(rt; net.add(3, -3), Err(refused(Refusal::ComplementaryPair)));
    assert_eq!(rt; net.add(-3, 3), Err(refused(Refusal::ComplementaryPair)));
    assert!(rt; net.seal().words() == [0u64; 6].as_slice());
}

#[test]
fn repeated_and_mirrored_adds(rt: HostRuntime) {
    let mut words = [0u64; 4];
    let mut net = Open::open(2, &mut words);
    assert_eq!(rt; net.add(1, -2), Ok(true));
    assert_eq!(rt; net.add(1, -2), Ok(false));
    assert_eq!(rt; net.add(-2, 1), Ok(false));
    assert_eq!(rt; net.add(-1, -2), Ok(true));
    let sealed = net.seal();
    assert!(rt; sealed.conflict(1, -2) && sealed.conflict(-2, 1));
    assert!(rt; !sealed.conflict(1, 2) && !sealed.conflict(1, 1));
    assert!(rt; !sealed.conflict(0, 1) && !sealed.conflict(3, 1) && !sealed.conflict(1, i32::MIN));
}

// Index 0 with index 2, each in the other's row; the last two words are not the network's.
#[test]
fn words_beyond_the_needed(rt: HostRuntime) {
    let mut words = [7u64; 6];
    let mut net = Open::open(2, &mut words);
    assert_eq!(rt; net.add(1, 2), Ok(true));
    let sealed = net.seal();
    assert_eq!(rt; sealed.variables(), 2);
    assert!(rt; sealed.words() == [4u64, 0, 1, 0, 7, 7].as_slice());
}

#[test]
fn unfit_numbers_touch_no_word(rt: HostRuntime) {
    let mut words = [7u64; 3];
    let mut net = Open::open(2, &mut words);
    assert_eq!(rt; net.add(1, 2), Err(refused(Refusal::LiteralOutOfRange)));
    let sealed = net.seal();
    assert_eq!(rt; sealed.variables(), 0);
    assert!(rt; sealed.words() == [7u64; 3].as_slice());
    assert_eq!(rt; Open::open(0, &mut words).seal().variables(), 0);
    assert_eq!(rt; Open::open(4097, &mut words).seal().variables(), 0);
}

// Rows of two words: index 64 with index 1, and index 65 with index 1.
#[test]
fn rows_of_two_words(rt: HostRuntime) {
    let mut words = [0u64; 132];
    let mut net = Open::open(33, &mut words);
    assert_eq!(rt; net.add(33, -1), Ok(true));
    assert_eq!(rt; net.add(-1, -33), Ok(true));
    assert_eq!(rt; net.add(34, 1), Err(refused(Refusal::LiteralOutOfRange)));
    let sealed = net.seal();
    let words = sealed.words();
    assert!(rt; words.len() == 132);
    assert!(rt; words[3] == 3 && words[128] == 2 && words[130] == 2);
}

#[test]
fn the_most_variables(rt: HostRuntime) -> Result<(), Fail> {
    let mut words = vec![in rt.alloc(); 1u64; 1_048_576]?;
    let mut net = Open::open(4096, &mut words);
    assert_eq!(rt; net.add(4096, -4095), Ok(true));
    assert_eq!(rt; net.add(-4096, 1), Ok(true));
    assert_eq!(rt; net.add(4097, 1), Err(refused(Refusal::LiteralOutOfRange)));
    assert_eq!(rt; net.add(1, -4097), Err(refused(Refusal::LiteralOutOfRange)));
    let sealed = net.seal();
    assert!(rt; sealed.conflict(-4095, 4096) && sealed.conflict(1, -4096));
    assert!(rt; !sealed.conflict(4095, 4096) && !sealed.conflict(4097, 1));
    Ok(())
}

#[test]
fn calls_and_pairs_agree(rt: HostRuntime) {
    let mut one = [1u64; 6];
    let mut two = [2u64; 6];
    let calls = [
        Call::Add(1, 2),
        Call::Add(2, 1),
        Call::Add(3, 3),
        Call::Add(-3, 2),
    ];
    let fed = feed(3, &mut one, &calls);
    let by_hand = fed_by_hand(3, &mut two, &[(-3, 2), (4, 1), (1, 2)]);
    assert!(rt; fed.words() == by_hand.words());
}
