// The formula of the conflicts, written by the encoder that a file picks.
ghost use Rattle.std.specs.Prelude.{◌≡◌, ◌≤◌, length};
ghost use Rattle.network_theory.specs.Calls.{most_variables};
ghost use Rattle.network_theory.specs.Layout.{words_needed};
ghost use Rattle.network.specs.Views.{net_of};
ghost use Rattle.compaction_theory.specs.Choices.{meaning_of};
ghost use Rattle.compaction_theory.specs.Written.{WroteNet};

use binary::Binary;
use compaction_theory::Choice;
use encoder::Encoder;
use fault::Fault;
use formula::{Size, write};
use layers::{Commander, Tower};
use network::{Sealed, fits};
use pairwise::Pairwise;
use sequential::Sequential;

// The last number for auxiliaries.
const LAST: i32 = 1_000_000_000;

// The groups of the program's commander.
const GROUP: usize = 3;

// The words that a network of `n` variables needs.
pub(crate) fn words_needed(n: usize) -> usize
    requires { (1 ≤ n) × (n ≤ most_variables) }
    ensures { result ≡ words_needed n }
{
    fits(n, usize::MAX).unwrap()
}

// Writes the formula of a network by an encoder, with auxiliaries from `first` on.
fn write_with<E: Encoder>(
    encoder: &E,
    net: &Sealed,
    first: i32,
    work: &mut [u64],
    list: &mut [i32],
    out: &mut [i32],
) -> Result<Size, Fault>
    ensures { WroteNet (net_of net.now.matrix) (E.Encoder.meaning encoder.now) first (length work.old) list.old list.new out.old out.new result }
{
    write(net, encoder, first, LAST, work, list, out)
}

// The same by the encoder that is picked.
pub(crate) fn write_by(
    choice: Choice,
    net: &Sealed,
    first: i32,
    work: &mut [u64],
    list: &mut [i32],
    out: &mut [i32],
) -> Result<Size, Fault>
    ensures { WroteNet (net_of net.now.matrix) (meaning_of choice) first (length work.old) list.old list.new out.old out.new result }
{
    match choice {
        Choice::Pairwise => write_with(&Pairwise, net, first, work, list, out),
        Choice::Binary => write_with(&Binary, net, first, work, list, out),
        Choice::Sequential => write_with(&Sequential, net, first, work, list, out),
        Choice::Commander => write_with(
            &Commander::new(GROUP, Pairwise, Binary),
            net,
            first,
            work,
            list,
            out,
        ),
        Choice::Tower => write_with(&Tower, net, first, work, list, out),
    }
}
