// What a cover is: parts and remaining conflicts; the rule that makes the cover of a network, and its laws.
// Only definitions and theorems stand here; the `cover` crate computes.
#![tactic(auto)]

ghost use Rattle.std.specs.Prelude.{◌≡◌, length};
ghost use Rattle.cover_theory.specs.Rule.{cover_of};
ghost use Rattle.cover_theory.specs.Examples.{against, TwoAgainstTwo, TwoAgainstThree};

// The numbers of parts of two literals against two and of two against three.
pub fn edge_parts() -> (usize, usize)
    ensures numbers { result ≡ (length (cover_of 4 (against 2 2)).parts, length (cover_of 5 (against 2 3)).parts) }
    ensures covers { TwoAgainstTwo × TwoAgainstThree }
{
    (0, 1)
}
