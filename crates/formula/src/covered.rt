// Measures and writes once the cover stands: its parts in the list, what remains in rows of the work words.
ghost use Rattle.std.specs.Prelude.{◌≡◌, ℕ, ◌+◌, ◌*◌, ◌<◌, ◌≤◌, length};
ghost use Rattle.encoder_theory.specs.Meaning.{last_end};
ghost use Rattle.formula_theory.specs.Writing.{clause_count};
ghost use Rattle.writing_theory.specs.Listed.{Writable, parts_of};
ghost use Rattle.writing_theory.specs.Covering.{Covering, cover_in, size_in, measured, written_answer, written_leaves, put};
ghost use Rattle.formula.specs.Rows.{remaining_in};

use crate::checks::{check_auxiliaries, check_room};
use crate::clauses::put_parts;
use crate::parts::add_up;
use crate::remaining::put_remaining;
use cover::Rows;
use encoder::Encoder;
use fault::Fault;
use filling::Filling;
use formula_theory::Size;
use writing_theory::Numbers;

// What the parts take together with the conflicts that remain, unless the auxiliaries are too many for the numbers.
pub(crate) fn measure_covered<E: Encoder>(
    encoder: &E,
    numbers: Numbers,
    list: &[i32],
    remaining: usize,
) -> Result<Size, Fault>
    requires { (n : ℕ) × Covering n (E.meaning encoder.now) list.now remaining }
    ensures { result ≡ measured (size_in (E.meaning encoder.now) list.now remaining) numbers }
{
    let parts = add_up(encoder, list);
    check_auxiliaries(numbers, parts.auxiliaries)?;
    Ok(Size {
        clauses: parts.clauses + remaining,
        auxiliaries: parts.auxiliaries,
    })
}

// Writes the clauses of the parts and of the conflicts that remain.
fn put_covered<E: Encoder>(encoder: &E, first: u32, list: &[i32], rows: &Rows, out: &mut [i32])
    requires ready { (n : ℕ) × Writable n (E.meaning encoder.now) (parts_of list.now) first }
    requires room { 2 * clause_count (E.meaning encoder.now) (cover_in list.now (remaining_in rows.now)) ≤ length out.old }
    ensures { out.new ≡ put (E.meaning encoder.now) (cover_in list.now (remaining_in rows.now)) first out.old }
{
    let mut out = Filling::new(out);
    put_parts(encoder, list, first, &mut out);
    put_remaining(rows, &mut out);
}

// Writes the cover's clauses at the start of `out`, unless the auxiliaries or the clauses are too many.
pub(crate) fn write_covered<E: Encoder>(
    encoder: &E,
    numbers: Numbers,
    list: &[i32],
    rows: &Rows,
    remaining: usize,
    out: &mut [i32],
) -> Result<Size, Fault>
    requires covering { (n : ℕ) × (n < numbers.first) × Covering n (E.meaning encoder.now) list.now remaining }
    requires numbers { numbers.end ≤ last_end }
    requires counted { remaining ≡ length (remaining_in rows.now) }
    ensures answer { result ≡ written_answer (size_in (E.meaning encoder.now) list.now remaining) numbers (length out.old) }
    ensures leaves { out.new ≡ written_leaves (E.meaning encoder.now) (cover_in list.now (remaining_in rows.now)) (size_in (E.meaning encoder.now) list.now remaining) numbers out.old }
{
    let size = measure_covered(encoder, numbers, list, remaining)?;
    check_room(2 * size.clauses, out.len())?;
    put_covered(encoder, numbers.first, list, rows, out);
    Ok(size)
}
