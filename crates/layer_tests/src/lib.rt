// Tests of the layers on examples: sizes at the edges of the grouping rule, k out of range, piles three deep, clauses, values, refusals.
#![tactic(auto)]

#[cfg(test)]
mod tests {
    use binary::Binary;
    use encoder::Encoder;
    use fault::{Fault, Layer, Refusal};
    use layers::{Commander, Tower};
    use pairwise::Pairwise;
    use sequential::Sequential;
    use std::process::Abort;

    const UNFIT: Fault = Fault {
        refusal: Refusal::UnfitMembers,
        layer: Layer::Encoder,
        place: 0,
    };

    const SHORT: Fault = Fault {
        refusal: Refusal::BufferShort,
        layer: Layer::Encoder,
        place: 0,
    };

    // Members, clauses and auxiliaries of the commander of 2, pairwise under tower.
    const OF_2: [(usize, usize, usize); 6] = [
        (2, 1, 0),
        (3, 3, 0),
        (5, 10, 0),
        (6, 12, 3),
        (255, 762, 191),
        (256, 764, 191),
    ];

    // And of the commander of 16, sequential under pairwise.
    const OF_16: [(usize, usize, usize); 7] = [
        (5, 11, 4),
        (6, 14, 5),
        (15, 41, 14),
        (16, 44, 15),
        (17, 62, 17),
        (255, 1_076, 255),
        (256, 1_080, 256),
    ];

    // Each row: numbers of members, of clauses and of auxiliaries; 257 members are too many.
    fn has_sizes<E: Encoder>(rt: &impl Abort, e: &E, table: &[(usize, usize, usize)]) {
        for &(members, clauses, auxiliaries) in table {
            assert_eq!(rt; e.clauses(members), Ok(clauses));
            assert_eq!(rt; e.auxiliaries(members), Ok(auxiliaries));
        }
        assert_eq!(rt; e.clauses(257), Err(UNFIT));
        assert_eq!(rt; e.auxiliaries(257), Err(UNFIT));
    }

    #[test]
    fn tower_sizes(rt: HostRuntime) {
        has_sizes(
            &rt,
            &Tower,
            &[
                (0, 0, 0),
                (1, 0, 0),
                (5, 10, 0),
                (6, 13, 2),
                (7, 16, 3),
                (15, 40, 5),
                (16, 44, 8),
                (255, 761, 128),
                (256, 764, 129),
            ],
        );
    }

    #[test]
    fn commander_sizes(rt: HostRuntime) {
        has_sizes(
            &rt,
            &Commander::new(3, Pairwise, Binary),
            &[
                (0, 0, 0),
                (3, 3, 0),
                (4, 6, 0),
                (5, 10, 0),
                (6, 14, 3),
                (10, 27, 6),
                (255, 1105, 92),
                (256, 1113, 93),
            ],
        );
        has_sizes(&rt, &Commander::new(16, Sequential, Pairwise), &OF_16);
    }

    // Made with less than 2 it is 2, with more than 16 it is 16.
    #[test]
    fn k_out_of_range(rt: HostRuntime) {
        has_sizes(&rt, &Commander::new(0, Pairwise, Tower), &OF_2);
        has_sizes(&rt, &Commander::new(1, Pairwise, Tower), &OF_2);
        has_sizes(&rt, &Commander::new(2, Pairwise, Tower), &OF_2);
        has_sizes(&rt, &Commander::new(17, Sequential, Pairwise), &OF_16);
        has_sizes(
            &rt,
            &Commander::new(usize::MAX, Sequential, Pairwise),
            &OF_16,
        );
    }

    // A commander of a commander, a tower under a commander, three deep.
    #[test]
    fn pile_sizes(rt: HostRuntime) {
        let inner = Commander::new(3, Pairwise, Binary);
        has_sizes(
            &rt,
            &Commander::new(4, Tower, inner),
            &[
                (4, 6, 0),
                (5, 10, 0),
                (6, 14, 2),
                (255, 873, 91),
                (256, 877, 91),
            ],
        );
        let below = Commander::new(2, Sequential, Tower);
        let above = Commander::new(5, Binary, Sequential);
        has_sizes(
            &rt,
            &Commander::new(7, below, above),
            &[
                (5, 11, 4),
                (6, 15, 6),
                (7, 19, 7),
                (8, 29, 10),
                (255, 1108, 328),
                (256, 1112, 329),
            ],
        );
    }

    // Seven members on the variables 1 to 7.
    const MEMBERS: [i32; 7] = [1, -2, 3, 4, -5, 6, 7];

    // A buffer that is too short stays whole, and so does one that a member's variable would be numbered into.
    fn declines<E: Encoder>(rt: &impl Abort, e: &E, room: usize) {
        assert!(rt; room <= 80);
        let mut short = [9; 80];
        assert_eq!(rt; e.write(&MEMBERS, 8, &mut short[0..room]), Err(SHORT));
        assert_eq!(rt; short, [9; 80]);
        let mut out = [9; 80];
        assert_eq!(rt; e.write(&MEMBERS, 7, &mut out), Err(UNFIT));
        assert_eq!(rt; out, [9; 80]);
    }

    // The clauses stand at the start of the buffer, and the tail stays.
    fn writes<E: Encoder>(rt: &impl Abort, e: &E, clauses: &[i32]) {
        let n = clauses.len();
        assert!(rt; n <= 78);
        let mut out = [9; 80];
        assert_eq!(rt; e.write(&MEMBERS, 8, &mut out[0..n + 2]), Ok(()));
        assert_eq!(rt; &out[..n], clauses);
        assert_eq!(rt; (out[n], out[n + 1]), (9, 9));
        declines(rt, e, n.saturating_sub(1));
    }

    #[test]
    fn clauses_of_seven(rt: HostRuntime) {
        writes(
            &rt,
            &Tower,
            &[
                -1, 2, -1, -3, 2, -3, -4, 5, -4, -6, 5, -6, 8, -1, 8, 2, 8, -3, 9, -4, 9, 5, 9, -6,
                10, -7, -8, -9, -8, -10, -9, -10,
            ],
        );
        writes(
            &rt,
            &Commander::new(3, Pairwise, Binary),
            &[
                -1, 2, -1, -3, 2, -3, -4, 5, -4, -6, 5, -6, 8, -1, 8, 2, 8, -3, 9, -4, 9, 5, 9, -6,
                10, -7, -8, -11, -8, -12, -9, 11, -9, -12, -10, -11, -10, 12,
            ],
        );
    }

    #[test]
    fn clauses_of_a_pile(rt: HostRuntime) {
        let below = Commander::new(2, Sequential, Tower);
        writes(
            &rt,
            &Commander::new(4, below, Tower),
            &[
                -1, 10, 2, 11, -10, 11, 2, -10, -3, 12, -11, 12, -3, -11, -4, -12, 5, 13, -6, 14,
                -13, 14, -6, -13, -7, -14, 8, -1, 8, 2, 8, -3, 8, -4, 9, 5, 9, -6, 9, -7, -8, -9,
            ],
        );
    }

    // The values stand at the start of the buffer, and the tail stays.
    fn gives<E: Encoder>(
        rt: &impl Abort,
        e: &E,
        members: usize,
        place: Option<usize>,
        values: &[u8],
    ) {
        let n = values.len();
        assert!(rt; n <= 30);
        let mut out = [9; 32];
        assert_eq!(rt; e.values(members, place, &mut out[0..n + 1]), Ok(()));
        assert_eq!(rt; &out[..n], values);
        assert_eq!(rt; out[n], 9);
    }

    // A place that no member has, and a buffer that is too short, change nothing.
    #[test]
    fn values_decline(rt: HostRuntime) {
        let mut out = [9; 3];
        assert_eq!(rt; Tower.values(7, Some(7), &mut out), Err(UNFIT));
        assert_eq!(rt; Tower.values(257, None, &mut out), Err(UNFIT));
        assert_eq!(rt; Tower.values(10, Some(0), &mut out), Err(SHORT));
        let commander = Commander::new(3, Pairwise, Binary);
        assert_eq!(rt; commander.values(7, Some(7), &mut out), Err(UNFIT));
        assert_eq!(rt; commander.values(7, None, &mut out), Err(SHORT));
        assert_eq!(rt; out, [9; 3]);
    }

    #[test]
    fn values_of_layers(rt: HostRuntime) {
        gives(&rt, &Tower, 17, Some(11), &[0, 0, 0, 1, 0, 0, 0, 1]);
        gives(&rt, &Tower, 6, None, &[0, 0]);
        let commander = Commander::new(3, Pairwise, Binary);
        gives(&rt, &commander, 7, Some(4), &[0, 1, 0, 1, 0]);
        gives(&rt, &commander, 7, None, &[0, 0, 0, 0, 0]);
        gives(
            &rt,
            &Commander::new(4, Sequential, commander),
            10,
            Some(6),
            &[0, 1, 0, 0, 0, 0, 0, 0, 1, 0],
        );
    }
}
