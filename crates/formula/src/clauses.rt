// Writes the clauses of a cover's parts, one part after another, each with auxiliaries of its own.
ghost use Rattle.std.specs.Prelude.{◌≡◌, ℕ, ◌+◌, ◌*◌, ◌≤◌, length, pos};
ghost use Rattle.std.specs.List.{All};
ghost use Rattle.logic.specs.Literal.{variable};
ghost use Rattle.logic.specs.Clause.{flat};
ghost use Rattle.encoder_theory.specs.Meaning.{Admits, last_end};
ghost use Rattle.filling.specs.Filled.{after};
ghost use Rattle.filling.specs.Views.{filled};
ghost use Rattle.cover.specs.Walk.{end_of};
ghost use Rattle.formula_theory.specs.Writing.{chosen, biclique_clauses, part_clauses, part_size, part_auxiliaries, over_parts};
ghost use Rattle.writing_theory.specs.Listed.{read_part, SoundBelow, Writable, parts_of, parts_clauses};

use crate::chosen::Chosen;
use crate::parts::part_size;
use cover::{Part, Parts};
use encoder::{Encoder, append_clauses, push_clause};
use filling::Filling;

// Puts the clauses of a clique next, by the encoder that it uses.
fn put_clique<E: Encoder>(encoder: &E, members: &[i32], first: u32, out: &mut Filling<i32>)
    requires admits { Admits (chosen (E.meaning encoder.now) (length members.now)) members.now first }
    requires room { 2 * (chosen (E.meaning encoder.now) (length members.now)).clauses (length members.now) ≤ length (filled out.old).rest }
    ensures { filled out.new ≡ after (filled out.old) (flat ((chosen (E.meaning encoder.now) (length members.now)).list members.now first)) }
{
    let encoder = Chosen::among(encoder, members.len());
    append_clauses(&encoder, members, first as i32, out).unwrap();
}

// Puts the clauses of a biclique next: a literal of the left makes the auxiliary true, and the auxiliary excludes each of the right.
fn put_biclique(left: &[i32], right: &[i32], auxiliary: u32, out: &mut Filling<i32>)
    requires left { All (λ a. variable a ≤ last_end) left.now }
    requires right { All (λ b. variable b ≤ last_end) right.now }
    requires auxiliary { auxiliary ≤ last_end }
    requires room { 2 * (length left.now + length right.now) ≤ length (filled out.old).rest }
    ensures { filled out.new ≡ after (filled out.old) (flat (biclique_clauses left.now right.now (pos auxiliary))) }
{
    let z = auxiliary as i32;
    for a in left {
        push_clause(out, (-*a, z));
    }
    for b in right {
        push_clause(out, (-z, -*b));
    }
}

// Puts the clauses of a part of the list next.
fn put_part<E: Encoder>(encoder: &E, list: &[i32], part: Part, first: u32, out: &mut Filling<i32>)
    requires within { end_of part ≤ length list.now }
    requires sound { SoundBelow first (read_part list.now part) }
    requires fits { first + part_auxiliaries (E.meaning encoder.now) (read_part list.now part) ≤ last_end }
    requires room { 2 * part_size (E.meaning encoder.now) (read_part list.now part) ≤ length (filled out.old).rest }
    ensures { filled out.new ≡ after (filled out.old) (flat (part_clauses (E.meaning encoder.now) (read_part list.now part) first)) }
{
    match part {
        Part::Clique { at, size } => put_clique(encoder, &list[at..at + size], first, out),
        Part::Biclique { at, left, right } => {
            let middle = at + left;
            put_biclique(&list[at..middle], &list[middle..middle + right], first, out)
        }
    }
}

// Puts the clauses of all parts of the list next, with auxiliaries from `first` on.
pub(crate) fn put_parts<E: Encoder>(encoder: &E, list: &[i32], first: u32, out: &mut Filling<i32>)
    requires ready { (n : ℕ) × Writable n (E.meaning encoder.now) (parts_of list.now) first }
    requires room { 2 * over_parts (part_size (E.meaning encoder.now)) (parts_of list.now) ≤ length (filled out.old).rest }
    ensures { filled out.new ≡ after (filled out.old) (flat (parts_clauses (E.meaning encoder.now) (parts_of list.now) first)) }
{
    let mut next = first;
    for part in Parts::new(list) {
        put_part(encoder, list, part, next, out);
        next += part_size(encoder, part).auxiliaries as u32;
    }
}
