// Tests of the network at its edges, and a caller whose own loop gets the law from the contracts of the calls alone.
#![tactic(auto)]

ghost use Rattle.network_theory.specs.Runs.{Exact};
ghost use Rattle.network.specs.Views.{net_of};
ghost use Rattle.network_tests.specs.Asked.{asked};

use network::{Open, Sealed};

// Adds the pairs one by one, some perhaps declined: exactly the accepted ones stand.
fn fed_by_hand<'a>(n: usize, words: &'a mut [u64], pairs: &[(i32, i32)]) -> Sealed<'a>
    ensures { Exact (net_of result.matrix) (asked pairs.now) }
{
    let mut net = Open::open(n, words);
    for pair in pairs {
        let _ = net.add(pair.0, pair.1);
    }
    net.seal()
}

#[cfg(test)]
mod tests;
