// The commander of k over a group encoder and a top encoder: groups of members have a commander each,
// and the top encoder keeps the commanders apart.
ghost use Rattle.std.specs.Prelude.{◌≡◌, ◌≤◌};
ghost use Rattle.layer_theory.specs.Commander.{commander, clamped};
ghost use Rattle.layer_theory.proofs.CommanderLaws.{commander_lawful};

use crate::group::{Grouping, name_commanders};
use encoder::{Encoder, append_clauses, append_values, check_count};
use fault::Fault;
use filling::Filling;

// The k of a commander is from this
const FEWEST_IN_GROUP: usize = 2;

// to this.
const MOST_IN_GROUP: usize = 16;

#[derive(Drop)]
pub struct Commander<G, T> {
    k: usize,
    group: G,
    top: T,
    ghost size: { (2 ≤ k) × (k ≤ 16) },
}

impl<G, T> Commander<G, T> {
    // Groups of `k` members, from 2 to 16: with less it is 2, with more 16.
    pub fn new(k: usize, group: G, top: T) -> Commander<G, T>
        ensures size { result.k ≡ clamped k }
        ensures inner { (result.group ≡ group) × (result.top ≡ top) }
    {
        let k = k.clamp(FEWEST_IN_GROUP, MOST_IN_GROUP);
        Commander { k, group, top }
    }
}

impl<G: Encoder, T: Encoder> Encoder for Commander<G, T> {
    ghost meaning = { λ e. commander e.k (G.meaning e.group) (T.meaning e.top) };

    ghost lawful = { λ e. commander_lawful e.k e.size.0 (G.meaning e.group) (T.meaning e.top) (G.lawful e.group) (T.lawful e.top) };

    fn clauses(&self, members: usize) -> Result<usize, Fault> {
        check_count(members)?;
        let Some(groups) = Grouping::new(self.k, members) else {
            return self.group.clauses(members);
        };
        Ok(groups.clauses(&self.group) + self.top.clauses(groups.count())?)
    }

    fn auxiliaries(&self, members: usize) -> Result<usize, Fault> {
        check_count(members)?;
        let Some(groups) = Grouping::new(self.k, members) else {
            return self.group.auxiliaries(members);
        };
        Ok(groups.auxiliaries(&self.group) + self.top.auxiliaries(groups.count())?)
    }

    fn write(&self, members: &[i32], first: i32, out: &mut [i32]) -> Result<(), Fault> {
        check_count(members.len())?;
        let Some(groups) = Grouping::new(self.k, members.len()) else {
            return self.group.write(members, first, out);
        };
        let first = self.check_write(members, first, out.len())?;
        let mut out = Filling::new(out);
        let next = groups.put(&self.group, members, first, &mut out);
        let count = groups.count();
        let names = name_commanders(first, count);
        append_clauses(&self.top, &names[..count], next as i32, &mut out)
    }

    fn values(&self, members: usize, place: Option<usize>, out: &mut [u8]) -> Result<(), Fault> {
        check_count(members)?;
        let Some(groups) = Grouping::new(self.k, members) else {
            return self.group.values(members, place, out);
        };
        self.check_values(members, place, out.len())?;
        let mut out = Filling::new(out);
        groups.put_values(&self.group, place, &mut out);
        append_values(
            &self.top,
            groups.count(),
            groups.group_place(place),
            &mut out,
        )
    }
}
