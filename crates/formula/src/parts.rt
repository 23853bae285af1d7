// The parts of a cover, one after another along the part list: how many clauses and auxiliaries they take.
ghost use Rattle.std.specs.Prelude.{◌≡◌, ℕ, ◌+◌, ◌≤◌};
ghost use Rattle.encoder_theory.specs.Meaning.{most_members};
ghost use Rattle.writing_theory.specs.Listed.{Moderate, Listed, clique_takes, takes, totals, parts_of};

use crate::chosen::Chosen;
use cover::{Part, Parts};
use encoder::Encoder;
use formula_theory::Size;

// What a clique of so many members takes.
fn clique_size<E: Encoder>(encoder: &E, members: usize) -> Size
    requires { members ≤ most_members }
    ensures { result ≡ clique_takes (E.meaning encoder.now) members }
{
    let encoder = Chosen::among(encoder, members);
    Size {
        clauses: encoder.clauses(members).unwrap(),
        auxiliaries: encoder.auxiliaries(members).unwrap(),
    }
}

// What a part takes.
pub(crate) fn part_size<E: Encoder>(encoder: &E, part: Part) -> Size
    requires { Moderate part }
    ensures { result ≡ takes (E.meaning encoder.now) part }
{
    match part {
        Part::Clique { size, .. } => clique_size(encoder, size),
        Part::Biclique { left, right, .. } => Size {
            clauses: left + right,
            auxiliaries: 1,
        },
    }
}

// What all parts of the list take together.
pub(crate) fn add_up<E: Encoder>(encoder: &E, list: &[i32]) -> Size
    requires { (n : ℕ) × Listed n (E.meaning encoder.now) (parts_of list.now) }
    ensures { result ≡ totals (E.meaning encoder.now) (parts_of list.now) }
{
    let mut total = Size {
        clauses: 0,
        auxiliaries: 0,
    };
    for part in Parts::new(list) {
        let size = part_size(encoder, part);
        total.clauses += size.clauses;
        total.auxiliaries += size.auxiliaries;
    }
    total
}
