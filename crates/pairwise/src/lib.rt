// Pairwise: every two members exclude each other. No auxiliaries.
#![tactic(auto)]

ghost use Rattle.std.specs.Prelude.{◌≡◌, ℕ, ◌*◌, ◌<◌, ◌≤◌, length};
ghost use Rattle.logic.specs.Literal.{variable};
ghost use Rattle.logic.specs.Clause.{flat};
ghost use Rattle.filling.specs.Filled.{after};
ghost use Rattle.filling.specs.Views.{filled};
ghost use Rattle.encoder_theory.specs.Members.{member};
ghost use Rattle.encoder_theory.specs.Meaning.{most_members, last_end};
ghost use Rattle.encoder_theory.specs.Pairwise.{pairs, pairwise};
ghost use Rattle.encoder_theory.proofs.PairwiseLaws.{pairwise_lawful};

use encoder::{Encoder, check_count, push_clause};
use fault::Fault;
use filling::Filling;

#[derive(Clone, Copy, Debug, Default, PartialEq, Eq)]
pub struct Pairwise;

// The number of pairs.
fn pair_count(members: usize) -> usize
    requires { members ≤ most_members }
    ensures { result ≡ pairwise.clauses members }
{
    members * members.saturating_sub(1) / 2
}

// Puts next, for every two members, the clause that they are not both true.
fn put_pairs(members: &[i32], out: &mut Filling<i32>)
    requires small { (i : ℕ) → i < length members.now → variable (member members.now i) ≤ last_end }
    requires room { 2 * pairwise.clauses (length members.now) ≤ length (filled out.old).rest }
    ensures { filled out.new ≡ after (filled out.old) (flat (pairs members.now)) }
{
    for (i, a) in members.iter().enumerate() {
        for b in &members[i + 1..] {
            push_clause(out, (-*a, -*b));
        }
    }
}

impl Encoder for Pairwise {
    ghost meaning = { λ _. pairwise };

    ghost lawful = { λ e. pairwise_lawful };

    fn clauses(&self, members: usize) -> Result<usize, Fault> {
        check_count(members).map(pair_count)
    }

    fn auxiliaries(&self, members: usize) -> Result<usize, Fault> {
        check_count(members).map(|_| 0)
    }

    fn write(&self, members: &[i32], first: i32, out: &mut [i32]) -> Result<(), Fault> {
        self.check_write(members, first, out.len())?;
        put_pairs(members, &mut Filling::new(out));
        Ok(())
    }

    fn values(&self, members: usize, place: Option<usize>, out: &mut [u8]) -> Result<(), Fault> {
        self.check_values(members, place, out.len())
    }
}
