// What every layer speaks of: literals and their index, clauses of two, assignments, chains.
// Definitions and their laws, and the two functions that go between a literal and its index.
#![tactic(auto)]

ghost use Rattle.std.specs.Prelude.{◌≡◌, ◌-◌, ◌*◌, ◌^◌, if◌then◌else◌, Some, None, nat_lt};
ghost use Rattle.logic.specs.Literal.{is_literal, index, literal};
ghost use Rattle.logic.specs.Gluing.{Gluing};
ghost use Rattle.logic.specs.Laws.{Indexed, ChainsKeepTruth};

// The index of `a`, if `a` is a literal on one of the variables 1 to `n`.
pub fn index_of(n: usize, a: i32) -> Option<usize>
    ensures { result ≡ (if is_literal n a then Some (index a) else None) }
{
    let variable = a.unsigned_abs() as usize;
    if !(1..=n).contains(&variable) {
        return None;
    }
    if a > 0 {
        Some(2 * variable - 2)
    } else {
        Some(2 * variable - 1)
    }
}

// The literal of index `u`, if its variable is at most 2^31 - 1, so that it and its complement are both an `i32`.
pub fn literal_at(u: usize) -> Option<i32>
    ensures { result ≡ (if nat_lt u (2 * (2 ^ 31 - 1)) then Some (literal u) else None) }
{
    let variable = i32::try_from(u / 2 + 1).ok()?;
    if u % 2 == 0 {
        Some(variable)
    } else {
        Some(-variable)
    }
}

// Does nothing: its contract is the gluing law. Lists of clauses that have only interface variables in common
// lead from one interface literal to another just by chains inside single lists.
pub fn lists_glue()
    ensures { Gluing }
{}

// Does nothing: its contract is that literals and places of their order go with each other.
pub fn literals_are_indexed()
    ensures { Indexed }
{}

// Does nothing: its contract is that a chain keeps truth.
pub fn chains_keep_truth()
    ensures { ChainsKeepTruth }
{}
