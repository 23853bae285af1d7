// The first conflict of a network that values break.
ghost use Rattle.std.specs.Prelude.{◌≡◌, ◌+◌, ◌-◌, ◌*◌, ◌<◌, ◌≤◌, true, length};
ghost use Rattle.logic.specs.Literal.{literal};
ghost use Rattle.logic.specs.Clause.{holds};
ghost use Rattle.network_theory.specs.Calls.{most_variables};
ghost use Rattle.formula_theory.specs.Outcome.{broken_along, broken_from, assignment_of, unless_refused};
ghost use Rattle.writing_theory.specs.Completing.{broken};
ghost use Rattle.cover.specs.Views.{rel_of};

use crate::remaining::literal_of;
use crate::values::is_true;
use cover::Rows;
use fault::{Fault, Layer, Refusal};

// Whether the literal of an index is true.
fn is_true_at(values: &[u8], u: usize) -> bool
    requires { (u < 2 * length values.now) × (u < 2 * most_variables) }
    ensures { result ≡ holds (assignment_of values.now) (literal u) }
{
    is_true(values, literal_of(u))
}

// The first conflict of the literal u with one after it, if both are true.
fn broken_at(rows: &Rows, values: &[u8], u: usize) -> Option<(i32, i32)>
    requires { (u < rows.now.count) × (rows.now.count ≡ 2 * length values.now) }
    ensures { result ≡ broken_along (rel_of rows.now) (assignment_of values.now) u (rows.now.count - (u + 1)) (u + 1) }
{
    if is_true_at(values, u) {
        for w in rows.after(u) {
            if is_true_at(values, w) {
                return Some((literal_of(u), literal_of(w)));
            }
        }
    }
    None
}

// The first conflict of all that has both literals true.
fn first_broken(rows: &Rows, values: &[u8]) -> Option<(i32, i32)>
    requires { rows.now.count ≡ 2 * length values.now }
    ensures { result ≡ broken_from rows.now.count (rel_of rows.now) (assignment_of values.now) rows.now.count 0 }
{
    for u in 0..rows.count {
        if let Some(pair) = broken_at(rows, values, u) {
            return Some(pair);
        }
    }
    None
}

// Refuses values that break a conflict in the rows, and names the first one.
pub(crate) fn check_unbroken(rows: &Rows, values: &[u8]) -> Result<(), Fault>
    requires { rows.now.count ≡ 2 * length values.now }
    ensures { result ≡ unless_refused (broken rows.now.count (rel_of rows.now) (assignment_of values.now)) tt }
{
    match first_broken(rows, values) {
        Some((a, b)) => Err(Fault::new(Layer::Formula, Refusal::BrokenConflict(a, b))),
        None => Ok(()),
    }
}
