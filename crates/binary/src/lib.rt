// Binary: each member fixes all bits of its place, counted from 0, lowest bit first. The auxiliaries are the bits.
#![tactic(auto)]

ghost use Rattle.std.specs.Prelude.{◌≡◌, ◌*◌, ◌+◌, ◌<◌, ◌≤◌, length, map};
ghost use Rattle.logic.specs.Literal.{variable, complement};
ghost use Rattle.logic.specs.Clause.{flat};
ghost use Rattle.filling.specs.Filled.{after};
ghost use Rattle.filling.specs.Views.{filled};
ghost use Rattle.encoder_theory.specs.Members.{auxiliary};
ghost use Rattle.encoder_theory.specs.Meaning.{Admits, most_members, last_end};
ghost use Rattle.encoder_theory.specs.Buffer.{byte};
ghost use Rattle.encoder_theory.specs.Binary.{bits, bit, as_bit, code, codes, binary};
ghost use Rattle.encoder_theory.proofs.BinaryLaws.{binary_lawful};

use encoder::{Encoder, auxiliary_literal, check_count, push_clause};
use fault::Fault;
use filling::Filling;

#[derive(Clone, Copy, Debug, Default, PartialEq, Eq)]
pub struct Binary;

// The least number of bits that tells so many members apart.
fn bit_count(members: usize) -> usize
    requires { members ≤ most_members }
    ensures { result ≡ bits members }
{
    members.next_power_of_two().ilog2() as usize
}

// A clause for each member and bit.
#[tactic(auto, using(encoder_theory::proofs::BinaryLaws::bits_few))]
fn clause_count(members: usize) -> usize
    requires { members ≤ most_members }
    ensures { result ≡ binary.clauses members }
{
    members * bit_count(members)
}

// Whether bit l of a place is 1. The network has its own for words: one for both types would need a trait.
fn has_bit(place: usize, l: usize) -> bool
    requires { l < 64 }
    ensures { result ≡ bit place l }
{
    (place >> l) % 2 == 1
}

// The literal that says that `z` is as the bit is.
fn literal_as(set: bool, z: i32) -> i32
    requires { variable z ≤ last_end }
    ensures { result ≡ as_bit set z }
{
    if set { z } else { -z }
}

// The clause that a member at i makes the auxiliary at l as bit l of i is.
fn code_clause(member: i32, first: u32, i: usize, l: usize) -> (i32, i32)
    requires { (variable member ≤ last_end) × ((first + l ≤ last_end) × (l < 64)) }
    ensures { result ≡ (complement member, as_bit (bit i l) (auxiliary first l)) }
{
    let z = auxiliary_literal(first, l);
    (-member, literal_as(has_bit(i, l), z))
}

// Puts the clauses next, member by member.
#[tactic(auto, using(encoder_theory::proofs::BinaryLaws::bits_few, encoder_theory::proofs::Answered::small_members))]
fn put_codes(members: &[i32], first: u32, out: &mut Filling<i32>)
    requires admits { Admits binary members.now first }
    requires room { 2 * binary.clauses (length members.now) ≤ length (filled out.old).rest }
    ensures { filled out.new ≡ after (filled out.old) (flat (codes members.now first)) }
{
    let bits = bit_count(members.len());
    for (i, member) in members.iter().enumerate() {
        for l in 0..bits {
            push_clause(out, code_clause(*member, first, i, l));
        }
    }
}

// The value of the auxiliary at l: bit l of the place, or 0 for none.
fn value(place: Option<usize>, l: usize) -> u8
    requires { l < 64 }
    ensures { result ≡ byte (code place l) }
{
    u8::from(place.is_some_and(|t| has_bit(t, l)))
}

// Puts the values next.
// Not shared by the encoders: a public loop over a closure would require something of its callers.
#[tactic(auto, using(encoder_theory::proofs::BinaryLaws::bits_few))]
fn put_values(members: usize, place: Option<usize>, out: &mut Filling<u8>)
    requires few { members ≤ most_members }
    requires room { bits members ≤ length (filled out.old).rest }
    ensures { filled out.new ≡ after (filled out.old) (map byte (binary.values members place)) }
{
    for l in 0..bit_count(members) {
        out.push(value(place, l));
    }
}

impl Encoder for Binary {
    ghost meaning = { λ _. binary };

    ghost lawful = { λ e. binary_lawful };

    fn clauses(&self, members: usize) -> Result<usize, Fault> {
        check_count(members).map(clause_count)
    }

    fn auxiliaries(&self, members: usize) -> Result<usize, Fault> {
        check_count(members).map(bit_count)
    }

    fn write(&self, members: &[i32], first: i32, out: &mut [i32]) -> Result<(), Fault> {
        let first = self.check_write(members, first, out.len())?;
        put_codes(members, first, &mut Filling::new(out));
        Ok(())
    }

    fn values(&self, members: usize, place: Option<usize>, out: &mut [u8]) -> Result<(), Fault> {
        self.check_values(members, place, out.len())?;
        put_values(members, place, &mut Filling::new(out));
        Ok(())
    }
}
