// What is refused before anything is covered, and what once the cover stands.
ghost use Rattle.std.specs.Prelude.{◌≡◌, ◌+◌, ◌*◌, ◌^◌, ◌≤◌, if◌then◌else◌, Ok, Err, nat_lt};
ghost use Rattle.network_theory.specs.Calls.{most_variables};
ghost use Rattle.formula_theory.specs.Outcome.{terms, exhausted_fault, buffer_fault};
ghost use Rattle.writing_theory.specs.Covering.{range_answer, terms_answer};
ghost use Rattle.writing_theory.specs.Completing.{valued_answer};

use crate::values::check_values;
use fault::{Fault, Layer, Refusal};
use network::row_words;
use writing_theory::Numbers;

// No auxiliary is numbered above this.
const MOST_AUXILIARY: i32 = 1_000_000_000;

// Refuses numbers for auxiliaries that will not do. Which will do depends on `n` too, so this is no `TryFrom`.
fn check_range(n: usize, first: i32, last: i32) -> Result<Numbers, Fault>
    requires { n ≤ most_variables }
    ensures { result ≡ range_answer n (terms first last 0 0) }
{
    if first <= n as i32 || last > MOST_AUXILIARY || last + 1 < first {
        return Err(Fault::new(Layer::Formula, Refusal::AuxiliaryRange));
    }
    Ok(Numbers {
        first: first.unsigned_abs(),
        end: (last + 1).unsigned_abs(),
    })
}

// Refuses work words fewer than `n` variables need, and then numbers for auxiliaries that will not do.
pub(crate) fn check_terms(n: usize, words: usize, first: i32, last: i32) -> Result<Numbers, Fault>
    requires { n ≤ most_variables }
    ensures { result ≡ terms_answer n (terms first last words 0) }
{
    if words < 2 * n * row_words(n) {
        return Err(Fault::new(Layer::Network, Refusal::WordsShort));
    }
    check_range(n, first, last)
}

// The same, and then values other than a 0 or a 1 for each variable.
pub(crate) fn check_valued(
    n: usize,
    words: usize,
    first: i32,
    last: i32,
    values: &[u8],
) -> Result<Numbers, Fault>
    requires { n ≤ most_variables }
    ensures { result ≡ valued_answer n (terms first last words 0) values.now }
{
    let numbers = check_terms(n, words, first, last)?;
    check_values(n, values)?;
    Ok(numbers)
}

// Refuses more auxiliaries than there are numbers.
pub(crate) fn check_auxiliaries(numbers: Numbers, auxiliaries: usize) -> Result<(), Fault>
    requires { auxiliaries ≤ 2 ^ 60 }
    ensures { result ≡ (if nat_lt numbers.end (numbers.first + auxiliaries) then Err exhausted_fault else Ok tt) }
{
    if (numbers.end as usize) < numbers.first as usize + auxiliaries {
        return Err(Fault::new(Layer::Formula, Refusal::AuxiliariesExhausted));
    }
    Ok(())
}

// Refuses a buffer that is too short for what is to be put there.
pub(crate) fn check_room(needed: usize, room: usize) -> Result<(), Fault>
    ensures { result ≡ (if nat_lt room needed then Err buffer_fault else Ok tt) }
{
    if room < needed {
        return Err(Fault::new(Layer::Formula, Refusal::BufferShort));
    }
    Ok(())
}
