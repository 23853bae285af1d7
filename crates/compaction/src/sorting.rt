// The clauses of a list of numbers, sorted: conflicts go into a network, all others are copied.
ghost use Rattle.std.specs.Prelude.{◌≡◌, List, [], ◌∷◌, ◌++◌, position};
ghost use Rattle.dimacs.specs.Clauses.{closes};
ghost use Rattle.network_theory.specs.Runs.{Came};
ghost use Rattle.network.specs.Views.{net_of};
ghost use Rattle.compaction_theory.specs.Sorted.{clauses_in, conflict_of};
ghost use Rattle.compaction_theory.specs.Account.{new_to};
ghost use Rattle.compaction_theory.specs.Buffers.{asked};
ghost use Rattle.compaction_theory.specs.Walks.{Small};
ghost use Rattle.std.specs.Iterator.{YieldsFirstRef, item_count};

use network::{Call, Open};

// The place of the first 0: it closes a clause.
fn closing(numbers: &[i32]) -> Option<usize>
    ensures { result ≡ position closes numbers.now }
{
    numbers.iter().position(|number| *number == 0)
}

// The clauses of a list of numbers, in their order: each is what stands before the 0 that closes it.
#[derive(Drop)]
pub(crate) struct Clauses<'a> {
    pub rest: &'a [i32],
}

impl<'a> Iterator for Clauses<'a> {
    type Item = &'a [i32];

    ghost next_gives = { YieldsFirstRef (λ s. clauses_in s.rest.now) };

    ghost remaining = { item_count (λ s. clauses_in s.rest.now) };

    fn next(&mut self) -> Option<&'a [i32]> {
        let numbers = self.rest;
        let end = closing(numbers)?;
        self.rest = &numbers[end + 1..];
        Some(&numbers[..end])
    }
}

// The conflict of a clause, by its length: a pair (x y) on different variables says that -x and -y are not both true.
pub(crate) fn conflict_of(clause: &[i32]) -> Option<(i32, i32)>
    requires { Small clause.now }
    ensures { result ≡ conflict_of clause.now }
{
    match clause {
        [] => None,
        [_] => None,
        [x, y] => {
            if x.unsigned_abs() == y.unsigned_abs() {
                None
            } else {
                Some((-*x, -*y))
            }
        }
        [_, _, ..] => None,
    }
}

// Adds the conflict of a clause, if it is one, and counts it if it is new.
pub(crate) fn add_clause(net: &mut Open, clause: &[i32]) -> usize
    requires { Small clause.now }
    ensures count { result ≡ new_to (net_of net.old.matrix) (conflict_of clause.now) }
    ensures variables { (net_of net.new.matrix).variables ≡ (net_of net.old.matrix).variables }
    ensures came { (calls : List Call) → Came (net_of net.old.matrix) calls → Came (net_of net.new.matrix) (calls ++ asked (clause.now ∷ [])) }
{
    match conflict_of(clause) {
        Some((a, b)) => usize::from(matches!(net.add(a, b), Ok(true))),
        None => 0,
    }
}
