// Sequential: the auxiliary at i says that a member up to i is true. Nothing below two members.
#![tactic(auto)]

ghost use Rattle.std.specs.Prelude.{◌≡◌, ◌+◌, ◌-◌, ◌*◌, ◌<◌, ◌≤◌, length, map};
ghost use Rattle.logic.specs.Literal.{variable};
ghost use Rattle.logic.specs.Clause.{against, flat};
ghost use Rattle.filling.specs.Filled.{after};
ghost use Rattle.filling.specs.Views.{filled};
ghost use Rattle.encoder_theory.specs.Members.{auxiliary};
ghost use Rattle.encoder_theory.specs.Meaning.{Admits, most_members, last_end};
ghost use Rattle.encoder_theory.specs.Buffer.{byte};
ghost use Rattle.encoder_theory.specs.Each.{table};
ghost use Rattle.encoder_theory.specs.Sequential.{implies, reached, sequential};
ghost use Rattle.encoder_theory.proofs.SequentialLaws.{sequential_lawful};

use encoder::{Encoder, auxiliary_literal, check_count, push_clause};
use fault::Fault;
use filling::Filling;

#[derive(Clone, Copy, Debug, Default, PartialEq, Eq)]
pub struct Sequential;

// Two clauses for the ends and three for each member between.
fn clause_count(members: usize) -> usize
    requires { members ≤ most_members }
    ensures { result ≡ sequential.clauses members }
{
    (3 * members).saturating_sub(4)
}

// One auxiliary for each member but the last.
fn auxiliary_count(members: usize) -> usize
    ensures { result ≡ sequential.auxiliaries members }
{
    members.saturating_sub(1)
}

// The clause that q is true if p is. Writing the clauses where they are put was tried, and the proof did not close.
fn implication(p: i32, q: i32) -> (i32, i32)
    requires { variable p ≤ last_end }
    ensures { result ≡ implies p q }
{
    (-p, q)
}

// The clause that two literals are not both true.
fn exclusion(a: i32, b: i32) -> (i32, i32)
    requires { (variable a ≤ last_end) × (variable b ≤ last_end) }
    ensures { result ≡ against a b }
{
    (-a, -b)
}

// Puts the clauses next, none below two members: each member raises the auxiliary at its place,
// the auxiliary before passes on to it, and stops the member.
fn put_sequence(members: &[i32], first: u32, out: &mut Filling<i32>)
    requires admits { Admits sequential members.now first }
    requires room { 2 * sequential.clauses (length members.now) ≤ length (filled out.old).rest }
    ensures { filled out.new ≡ after (filled out.old) (flat (sequential.list members.now first)) }
{
    if let [start, between @ .., end] = members {
        push_clause(out, implication(*start, auxiliary_literal(first, 0)));
        for (i, member) in between.iter().enumerate() {
            let before = auxiliary_literal(first, i);
            let here = auxiliary_literal(first, i + 1);
            push_clause(out, implication(*member, here));
            push_clause(out, implication(before, here));
            push_clause(out, exclusion(*member, before));
        }
        let last = auxiliary_literal(first, between.len());
        push_clause(out, exclusion(*end, last));
    }
}

// The value of the auxiliary at i: whether the true member's place is i or before.
fn value(place: Option<usize>, i: usize) -> u8
    ensures { result ≡ byte (reached place i) }
{
    u8::from(place.is_some_and(|t| t <= i))
}

// Puts a value into each byte. A loop over the bytes: asking a `Filling` for room at each of them took four times as long.
fn put_values(place: Option<usize>, out: &mut [u8])
    ensures { out.new ≡ map byte (table (length out.old) (reached place)) }
{
    for (i, byte) in out.iter_mut().enumerate() {
        *byte = value(place, i);
    }
}

impl Encoder for Sequential {
    ghost meaning = { λ _. sequential };

    ghost lawful = { λ e. sequential_lawful };

    fn clauses(&self, members: usize) -> Result<usize, Fault> {
        check_count(members).map(clause_count)
    }

    fn auxiliaries(&self, members: usize) -> Result<usize, Fault> {
        check_count(members).map(auxiliary_count)
    }

    fn write(&self, members: &[i32], first: i32, out: &mut [i32]) -> Result<(), Fault> {
        let first = self.check_write(members, first, out.len())?;
        put_sequence(members, first, &mut Filling::new(out));
        Ok(())
    }

    fn values(&self, members: usize, place: Option<usize>, out: &mut [u8]) -> Result<(), Fault> {
        self.check_values(members, place, out.len())?;
        put_values(place, &mut out[..auxiliary_count(members)]);
        Ok(())
    }
}
