// Tests of the three encoders on examples: sizes, clauses, values, refusals, and what a buffer keeps.
#![tactic(auto)]

#[cfg(test)]
mod tests {
    use binary::Binary;
    use encoder::Encoder;
    use fault::{Fault, Layer, Refusal};
    use pairwise::Pairwise;
    use sequential::Sequential;
    use std::array;
    use std::process::Abort;
    use std::test::Fail;

    const UNFIT: Fault = Fault {
        refusal: Refusal::UnfitMembers,
        layer: Layer::Encoder,
        place: 0,
    };

    const SHORT: Fault = Fault {
        refusal: Refusal::BufferShort,
        layer: Layer::Encoder,
        place: 0,
    };

    // The members 1, -2, 3, -4 and so on.
    fn sample() -> [i32; 257] {
        array::from_fn(|i| {
            let variable = i as i32 + 1;
            if i % 2 == 0 { variable } else { -variable }
        })
    }

    // Numbers of members, of clauses and of auxiliaries.
    fn has_sizes<E: Encoder>(rt: &impl Abort, e: &E, table: [(usize, usize, usize); 8]) {
        for (members, clauses, auxiliaries) in table {
            assert_eq!(rt; e.clauses(members), Ok(clauses));
            assert_eq!(rt; e.auxiliaries(members), Ok(auxiliaries));
        }
    }

    #[test]
    fn sizes(rt: HostRuntime) {
        has_sizes(
            &rt,
            &Pairwise,
            [
                (0, 0, 0),
                (1, 0, 0),
                (2, 1, 0),
                (3, 3, 0),
                (5, 10, 0),
                (6, 15, 0),
                (255, 32_385, 0),
                (256, 32_640, 0),
            ],
        );
        has_sizes(
            &rt,
            &Binary,
            [
                (0, 0, 0),
                (1, 0, 0),
                (2, 2, 1),
                (3, 6, 2),
                (5, 15, 3),
                (6, 18, 3),
                (255, 2_040, 8),
                (256, 2_048, 8),
            ],
        );
        has_sizes(
            &rt,
            &Sequential,
            [
                (0, 0, 0),
                (1, 0, 0),
                (2, 2, 1),
                (3, 5, 2),
                (5, 11, 4),
                (6, 14, 5),
                (255, 761, 254),
                (256, 764, 255),
            ],
        );
    }

    // The clauses stand at the start of the buffer, and the tail stays; a buffer that is one too short stays whole.
    fn writes<E: Encoder>(rt: &impl Abort, e: &E, members: &[i32], clauses: &[i32]) {
        let n = clauses.len();
        assert!(rt; n <= 30);
        let mut out = [9; 32];
        assert_eq!(rt; e.write(members, 300, &mut out[..n + 2]), Ok(()));
        assert_eq!(rt; &out[..n], clauses);
        assert_eq!(rt; &out[n..n + 2], [9, 9].as_slice());
        if n > 0 {
            let mut short = [9; 32];
            assert_eq!(rt; e.write(members, 300, &mut short[..n - 1]), Err(SHORT));
            assert_eq!(rt; short, [9; 32]);
        }
    }

    #[test]
    fn lists(rt: HostRuntime) {
        writes(&rt, &Pairwise, &[], &[]);
        writes(&rt, &Pairwise, &[4], &[]);
        writes(&rt, &Pairwise, &[4, -7], &[-4, 7]);
        writes(&rt, &Pairwise, &[1, -2, 3], &[-1, 2, -1, -3, 2, -3]);
        writes(&rt, &Binary, &[], &[]);
        writes(&rt, &Binary, &[4], &[]);
        writes(&rt, &Binary, &[4, -7], &[-4, -300, 7, 300]);
        writes(
            &rt,
            &Binary,
            &[1, -2, 3],
            &[-1, -300, -1, -301, 2, 300, 2, -301, -3, -300, -3, 301],
        );
        writes(&rt, &Sequential, &[], &[]);
        writes(&rt, &Sequential, &[4], &[]);
        writes(&rt, &Sequential, &[4, -7], &[-4, 300, 7, -300]);
        writes(
            &rt,
            &Sequential,
            &[1, -2, 3],
            &[-1, 300, 2, 301, -300, 301, 2, -300, -3, -301],
        );
    }

    // The values stand at the start of the buffer, and the tail stays; a buffer that is one too short stays whole.
    fn puts<E: Encoder>(rt: &impl Abort, e: &E, place: Option<usize>, values: &[u8]) {
        let n = values.len();
        assert!(rt; n > 0 && n <= 6);
        let mut out = [9; 8];
        assert_eq!(rt; e.values(5, place, &mut out[..n + 1]), Ok(()));
        assert_eq!(rt; &out[..n], values);
        assert_eq!(rt; out[n], 9);
        let mut short = [9; 8];
        assert_eq!(rt; e.values(5, place, &mut short[..n - 1]), Err(SHORT));
        assert_eq!(rt; short, [9; 8]);
    }

    #[test]
    fn values(rt: HostRuntime) {
        puts(&rt, &Binary, None, &[0, 0, 0]);
        puts(&rt, &Binary, Some(0), &[0, 0, 0]);
        puts(&rt, &Binary, Some(4), &[0, 0, 1]);
        puts(&rt, &Sequential, None, &[0, 0, 0, 0]);
        puts(&rt, &Sequential, Some(0), &[1, 1, 1, 1]);
        puts(&rt, &Sequential, Some(2), &[0, 0, 1, 1]);
        puts(&rt, &Sequential, Some(4), &[0, 0, 0, 0]);
        assert_eq!(rt; Pairwise.values(5, Some(4), &mut []), Ok(()));
    }

    // Whether a literal is true, with the sample's member at `place` true or none, and the auxiliaries' values from 300 on.
    fn is_true(literal: i32, place: Option<usize>, values: &[u8]) -> bool {
        let variable = literal.unsigned_abs() as usize;
        let value = if variable >= 300 {
            values.get(variable - 300) == Some(&1)
        } else {
            (place == variable.checked_sub(1)) == (variable % 2 == 1)
        };
        (literal > 0) == value
    }

    fn satisfies<E: Encoder>(
        rt: &impl Abort,
        e: &E,
        members: &[i32],
        place: Option<usize>,
    ) -> Result<(), Fail> {
        let mut numbers = [0; 65_280];
        let mut bytes = [0; 255];
        e.write(members, 300, &mut numbers)?;
        e.values(members.len(), place, &mut bytes)?;
        let clauses = e.clauses(members.len())?;
        assert!(rt; clauses <= 32_640);
        for clause in numbers[..2 * clauses].chunks_exact(2) {
            assert!(rt;
                clause
                    .iter()
                    .any(|literal| is_true(*literal, place, &bytes))
            );
        }
        Ok(())
    }

    // What `write` answers with room for so many numbers.
    fn answer_in<E: Encoder>(
        rt: &impl Abort,
        e: &E,
        members: &[i32],
        room: usize,
    ) -> Result<(), Fault> {
        assert!(rt; room <= 65_280);
        let mut numbers = [0; 65_280];
        e.write(members, 300, &mut numbers[..room])
    }

    // A buffer that just fits is taken, and one that is a number shorter is not.
    fn takes_what_fits<E: Encoder>(rt: &impl Abort, e: &E, members: &[i32]) -> Result<(), Fail> {
        let clauses = e.clauses(members.len())?;
        assert!(rt; clauses > 0 && clauses <= 32_640);
        assert_eq!(rt; answer_in(rt, e, members, 2 * clauses), Ok(()));
        assert_eq!(rt; answer_in(rt, e, members, 2 * clauses - 1), Err(SHORT));
        Ok(())
    }

    fn completes<E: Encoder>(rt: &impl Abort, e: &E) -> Result<(), Fail> {
        let members = sample();
        takes_what_fits(rt, e, &members[0..255])?;
        takes_what_fits(rt, e, &members[0..256])?;
        satisfies(rt, e, &members[0..6], None)?;
        satisfies(rt, e, &members[0..6], Some(5))?;
        satisfies(rt, e, &members[0..255], Some(128))?;
        satisfies(rt, e, &members[0..256], None)?;
        satisfies(rt, e, &members[0..256], Some(0))?;
        satisfies(rt, e, &members[0..256], Some(255))
    }

    #[test]
    fn one_true_member_satisfies(rt: HostRuntime) -> Result<(), Fail> {
        completes(&rt, &Pairwise)?;
        completes(&rt, &Binary)?;
        completes(&rt, &Sequential)
    }

    fn refuses_many<E: Encoder>(rt: &impl Abort, e: &E) {
        assert_eq!(rt; e.clauses(257), Err(UNFIT));
        assert_eq!(rt; e.auxiliaries(usize::MAX), Err(UNFIT));
        let mut numbers = [5; 4];
        assert_eq!(rt; e.write(&sample(), 1_000, &mut numbers), Err(UNFIT));
        assert_eq!(rt; numbers, [5; 4]);
        let mut bytes = [5; 4];
        assert_eq!(rt; e.values(257, None, &mut bytes), Err(UNFIT));
        assert_eq!(rt; bytes, [5; 4]);
    }

    #[test]
    fn too_many_members(rt: HostRuntime) {
        refuses_many(&rt, &Pairwise);
        refuses_many(&rt, &Binary);
        refuses_many(&rt, &Sequential);
    }

    // Refused with 12 before a short buffer is, and nothing is changed.
    fn refuses<E: Encoder>(rt: &impl Abort, e: &E, members: &[i32], first: i32) {
        let mut out = [5; 8];
        assert_eq!(rt; e.write(members, first, &mut out), Err(UNFIT));
        assert_eq!(rt; e.write(members, first, &mut out[..1]), Err(UNFIT));
        assert_eq!(rt; out, [5; 8]);
    }

    fn refuses_unfit<E: Encoder>(rt: &impl Abort, e: &E) {
        refuses(rt, e, &[1, 2], 0);
        refuses(rt, e, &[1, 2], -1);
        refuses(rt, e, &[], i32::MIN);
        refuses(rt, e, &[1, 0], 9);
        refuses(rt, e, &[1, 9], 9);
        refuses(rt, e, &[1, -9], 9);
        refuses(rt, e, &[1, i32::MIN], i32::MAX);
        refuses(rt, e, &[3, 2, 3], 9);
        refuses(rt, e, &[3, 2, -3], 9);
        refuses(rt, e, &[1, 2], 1_000_000_002);
        let mut bytes = [5; 4];
        assert_eq!(rt; e.values(3, Some(3), &mut bytes), Err(UNFIT));
        assert_eq!(rt; e.values(0, Some(0), &mut bytes[..0]), Err(UNFIT));
        assert_eq!(rt; bytes, [5; 4]);
    }

    #[test]
    fn unfit(rt: HostRuntime) {
        refuses_unfit(&rt, &Pairwise);
        refuses_unfit(&rt, &Binary);
        refuses_unfit(&rt, &Sequential);
    }

    #[test]
    fn last_auxiliary(rt: HostRuntime) {
        let mut out = [0; 4];
        assert_eq!(rt; Pairwise.write(&[1, 2], 1_000_000_001, &mut out), Ok(()));
        assert_eq!(rt; Binary.write(&[1, 2], 1_000_000_000, &mut out), Ok(()));
        assert_eq!(rt; Sequential.write(&[1, 2], 1_000_000_000, &mut out), Ok(()));
        assert_eq!(rt; out, [-1, 1_000_000_000, -2, -1_000_000_000]);
        refuses(&rt, &Binary, &[1, 2], 1_000_000_001);
        refuses(&rt, &Sequential, &[1, 2], 1_000_000_001);
    }
}
