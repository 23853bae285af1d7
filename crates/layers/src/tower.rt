// The tower: pairwise up to five members; above, groups of three under pairwise, whose commanders go to the tower itself.
// Each call is a plain recursion on the number of members, which falls to its third, rounded up.
ghost use Rattle.std.specs.Prelude.{◌≡◌, ◌*◌, ◌≤◌, map, length};
ghost use Rattle.logic.specs.Clause.{flat};
ghost use Rattle.filling.specs.Filled.{after};
ghost use Rattle.filling.specs.Views.{filled};
ghost use Rattle.encoder_theory.specs.Members.{Within};
ghost use Rattle.encoder_theory.specs.Meaning.{Admits, most_members};
ghost use Rattle.encoder_theory.specs.Buffer.{byte};
ghost use Rattle.layer_theory.specs.Tower.{tower};
ghost use Rattle.layer_theory.proofs.TowerLaws.{tower_lawful};

use crate::group::{Grouping, name_commanders};
use encoder::{Encoder, append_clauses, append_values, check_count};
use fault::Fault;
use filling::Filling;
use pairwise::Pairwise;

// Groups have so many.
const GROUP: usize = 3;

#[derive(Clone, Copy, Debug, Default, PartialEq, Eq)]
pub struct Tower;

// The number of clauses.
fn tower_clauses(members: usize) -> usize
    requires { members ≤ most_members }
    ensures { result ≡ tower.clauses members }
{
    let Some(groups) = Grouping::new(GROUP, members) else {
        return Pairwise.clauses(members).unwrap();
    };
    groups.clauses(&Pairwise) + tower_clauses(groups.count())
}

// The number of auxiliaries; a function beside that of the clauses, as the trait has two methods.
fn tower_auxiliaries(members: usize) -> usize
    requires { members ≤ most_members }
    ensures { result ≡ tower.auxiliaries members }
{
    let Some(groups) = Grouping::new(GROUP, members) else {
        return Pairwise.auxiliaries(members).unwrap();
    };
    groups.auxiliaries(&Pairwise) + tower_auxiliaries(groups.count())
}

// Puts the clauses next.
fn put_tower(members: &[i32], first: u32, out: &mut Filling<i32>)
    requires admits { Admits tower members.now first }
    requires room { 2 * tower.clauses (length members.now) ≤ length (filled out.old).rest }
    ensures { filled out.new ≡ after (filled out.old) (flat (tower.list members.now first)) }
{
    let Some(groups) = Grouping::new(GROUP, members.len()) else {
        append_clauses(&Pairwise, members, first as i32, out).unwrap();
        return;
    };
    let next = groups.put(&Pairwise, members, first, out);
    let count = groups.count();
    let names = name_commanders(first, count);
    put_tower(&names[..count], next, out);
}

// Puts the values next.
fn put_tower_values(members: usize, place: Option<usize>, out: &mut Filling<u8>)
    requires few { members ≤ most_members }
    requires within { Within place members }
    requires room { tower.auxiliaries members ≤ length (filled out.old).rest }
    ensures { filled out.new ≡ after (filled out.old) (map byte (tower.values members place)) }
{
    let Some(groups) = Grouping::new(GROUP, members) else {
        append_values(&Pairwise, members, place, out).unwrap();
        return;
    };
    groups.put_values(&Pairwise, place, out);
    put_tower_values(groups.count(), groups.group_place(place), out);
}

impl Encoder for Tower {
    ghost meaning = { λ _. tower };

    ghost lawful = { λ e. tower_lawful };

    fn clauses(&self, members: usize) -> Result<usize, Fault> {
        check_count(members).map(tower_clauses)
    }

    fn auxiliaries(&self, members: usize) -> Result<usize, Fault> {
        check_count(members).map(tower_auxiliaries)
    }

    fn write(&self, members: &[i32], first: i32, out: &mut [i32]) -> Result<(), Fault> {
        let first = self.check_write(members, first, out.len())?;
        put_tower(members, first, &mut Filling::new(out));
        Ok(())
    }

    fn values(&self, members: usize, place: Option<usize>, out: &mut [u8]) -> Result<(), Fault> {
        self.check_values(members, place, out.len())?;
        put_tower_values(members, place, &mut Filling::new(out));
        Ok(())
    }
}
