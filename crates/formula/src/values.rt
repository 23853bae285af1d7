// The values of the original variables, a byte each: 1 is true, 0 is false.
ghost use Rattle.std.specs.Prelude.{◌≡◌, length, if◌then◌else◌, Ok, Err};
ghost use Rattle.logic.specs.Literal.{Literal};
ghost use Rattle.logic.specs.Clause.{holds};
ghost use Rattle.formula_theory.specs.Outcome.{are_bits, values_unfit, values_fault, assignment_of};

use fault::{Fault, Layer, Refusal};

// The byte of a true variable.
const TRUE: u8 = 1;

// Whether every byte is 0 or 1.
fn are_bits(values: &[u8]) -> bool
    ensures { result ≡ are_bits values.now }
{
    values.iter().all(|value| *value <= TRUE)
}

// Refuses values other than a 0 or a 1 for each of `n` variables.
pub(crate) fn check_values(n: usize, values: &[u8]) -> Result<(), Fault>
    ensures { result ≡ (if values_unfit n values.now then Err values_fault else Ok tt) }
{
    if values.len() != n || !are_bits(values) {
        return Err(Fault::new(Layer::Formula, Refusal::UnfitValues));
    }
    Ok(())
}

// Whether a literal is true.
pub(crate) fn is_true(values: &[u8], a: i32) -> bool
    requires { Literal (length values.now) a }
    ensures { result ≡ holds (assignment_of values.now) a }
{
    let value = values[a.unsigned_abs() as usize - 1] == TRUE;
    if a > 0 { value } else { !value }
}
