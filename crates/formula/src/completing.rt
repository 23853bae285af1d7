// Puts the values of the auxiliaries that go with values of the original variables, one part of the cover after another.
ghost use Rattle.std.specs.Prelude.{◌≡◌, ◌*◌, ◌≤◌, map, length, ℤ};
ghost use Rattle.std.specs.List.{All};
ghost use Rattle.logic.specs.Literal.{Literal};
ghost use Rattle.logic.specs.Clause.{In};
ghost use Rattle.encoder_theory.specs.Meaning.{most_members};
ghost use Rattle.encoder_theory.specs.Buffer.{byte};
ghost use Rattle.filling.specs.Filled.{after};
ghost use Rattle.filling.specs.Views.{filled};
ghost use Rattle.cover.specs.Walk.{end_of};
ghost use Rattle.cover_theory.specs.Parts.{Part as CoverPart, Sound};
ghost use Rattle.formula_theory.specs.Writing.{chosen, true_place, part_values, part_auxiliaries, over_parts, values_from};
ghost use Rattle.formula_theory.specs.Outcome.{assignment_of, kept_if_refused};
ghost use Rattle.writing_theory.specs.Listed.{read_part, parts_of, Listed};
ghost use Rattle.writing_theory.specs.Completing.{broken, late_complete, completed_answer, put_values};
ghost use Rattle.cover.specs.Views.{rel_of};

use crate::broken::check_unbroken;
use crate::checks::{check_auxiliaries, check_room};
use crate::chosen::Chosen;
use crate::parts::add_up;
use crate::values::is_true;
use cover::{Part, Parts, Rows};
use encoder::{Encoder, append_values};
use fault::Fault;
use filling::Filling;
use writing_theory::Numbers;

// The place of the first true literal, if one is true.
fn true_place(values: &[u8], literals: &[i32]) -> Option<usize>
    requires { All (Literal (length values.now)) literals.now }
    ensures { result ≡ true_place (assignment_of values.now) literals.now }
{
    literals.iter().position(|a| is_true(values, *a))
}

// Puts the values of a clique's auxiliaries next, by the encoder that it uses.
fn put_clique<E: Encoder>(encoder: &E, values: &[u8], members: &[i32], out: &mut Filling<u8>)
    requires few { length members.now ≤ most_members }
    requires literals { All (Literal (length values.now)) members.now }
    requires room { (chosen (E.meaning encoder.now) (length members.now)).auxiliaries (length members.now) ≤ length (filled out.old).rest }
    ensures { filled out.new ≡ after (filled out.old) (map byte ((chosen (E.meaning encoder.now) (length members.now)
        ).values (length members.now) (true_place (assignment_of values.now) members.now))) }
{
    let encoder = Chosen::among(encoder, members.len());
    append_values(&encoder, members.len(), true_place(values, members), out).unwrap();
}

// Puts the values of the auxiliaries of a part of the list next.
fn put_part<E: Encoder>(encoder: &E, values: &[u8], list: &[i32], part: Part, out: &mut Filling<u8>)
    requires within { end_of part ≤ length list.now }
    requires sound { Sound (length values.now) (read_part list.now part) }
    requires room { part_auxiliaries (E.meaning encoder.now) (read_part list.now part) ≤ length (filled out.old).rest }
    ensures { filled out.new ≡ after (filled out.old)
        (map byte (part_values (E.meaning encoder.now) (assignment_of values.now) (read_part list.now part))) }
{
    match part {
        Part::Clique { at, size } => put_clique(encoder, values, &list[at..at + size], out),
        Part::Biclique { at, left, .. } => {
            let place = true_place(values, &list[at..at + left]);
            out.push(place.is_some() as u8)
        }
    }
}

// Puts the values of all parts' auxiliaries next.
fn put_parts<E: Encoder>(encoder: &E, values: &[u8], list: &[i32], out: &mut Filling<u8>)
    requires sound { (P : CoverPart ℤ) → In P (parts_of list.now) → Sound (length values.now) P }
    requires room { over_parts (part_auxiliaries (E.meaning encoder.now)) (parts_of list.now) ≤ length (filled out.old).rest }
    ensures { filled out.new ≡ after (filled out.old) (map byte (values_from (E.meaning encoder.now) (assignment_of values.now) (parts_of list.now))) }
{
    for part in Parts::new(list) {
        put_part(encoder, values, list, part, out);
    }
}

// How many auxiliaries the parts have, unless they are too many for the numbers or for the room, or the values break a conflict.
fn check_completion<E: Encoder>(
    encoder: &E,
    numbers: Numbers,
    rows: &Rows,
    values: &[u8],
    list: &[i32],
    room: usize,
) -> Result<usize, Fault>
    requires listed { Listed (length values.now) (E.meaning encoder.now) (parts_of list.now) }
    requires fit { rows.now.count ≡ 2 * length values.now }
    ensures { result ≡ completed_answer (over_parts (part_auxiliaries (E.meaning encoder.now)) (parts_of list.now)) numbers room (broken rows.now.count (rel_of rows.now) (assignment_of values.now)) }
{
    let auxiliaries = add_up(encoder, list).auxiliaries;
    check_auxiliaries(numbers, auxiliaries)?;
    check_room(auxiliaries, room)?;
    check_unbroken(rows, values)?;
    Ok(auxiliaries)
}

// Puts the auxiliaries' values at the start of `out`, unless one of these is met.
pub(crate) fn complete_covered<E: Encoder>(
    encoder: &E,
    numbers: Numbers,
    rows: &Rows,
    values: &[u8],
    list: &[i32],
    out: &mut [u8],
) -> Result<usize, Fault>
    requires listed { Listed (length values.now) (E.meaning encoder.now) (parts_of list.now) }
    requires fit { rows.now.count ≡ 2 * length values.now }
    ensures answer { result ≡ completed_answer (over_parts (part_auxiliaries (E.meaning encoder.now)) (parts_of list.now)) numbers (length out.old) (broken rows.now.count (rel_of rows.now) (assignment_of values.now)) }
    ensures leaves { out.new ≡ kept_if_refused (late_complete (over_parts (part_auxiliaries (E.meaning encoder.now)) (parts_of list.now)) numbers (length out.old) (broken rows.now.count (rel_of rows.now) (assignment_of values.now))) (put_values (E.meaning encoder.now) (parts_of list.now) (assignment_of values.now) out.old) out.old }
{
    let auxiliaries = check_completion(encoder, numbers, rows, values, list, out.len())?;
    put_parts(encoder, values, list, &mut Filling::new(out));
    Ok(auxiliaries)
}
