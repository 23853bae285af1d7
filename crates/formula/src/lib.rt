// The formula of a sealed network: measured, written and completed, over any encoder. Each call first covers the network.
// The contract of a call pins
//   `answer`   what it answers, and when it is refused
//   `words`    every work word that it leaves
//   `list`     every number of the part list that it leaves
//   `clauses`  every number of the clause buffer that a writing leaves
//   `bytes`    every byte that a completion leaves
//   `every_run` and `any_other`  the promise of faithfulness: for every list of calls by which the network came, and over two writings
//   `completes`  that values and bytes together satisfy what is written, for every list of calls by which the network came
#![tactic(auto)]

mod broken;
mod checks;
mod chosen;
mod clauses;
mod completing;
mod covered;
mod parts;
mod remaining;
mod rows;
mod values;

ghost use Rattle.std.specs.Prelude.{◌≡◌, length};
ghost use Rattle.network.specs.Views.{net_of};
ghost use Rattle.cover_theory.specs.Rule.{cover_of};
ghost use Rattle.formula_theory.specs.Promise.{EveryRun, AnyOther, EveryCompletion};
ghost use Rattle.writing_theory.specs.Contract.{lent, answer_of_measure, answer_of_write, answer_of_complete, words_left, list_left, words_completed, list_completed, clauses_left, bytes_left};

use checks::{check_terms, check_valued};
use completing::complete_covered;
use cover::cover;
use covered::{measure_covered, write_covered};
use encoder::Encoder;
use fault::Fault;
pub use formula_theory::Size;
use network::Sealed;
use rows::rows_of;

// Covers the network, and tells how many clauses and auxiliaries a writing takes.
pub fn measure<E: Encoder>(
    net: &Sealed,
    encoder: &E,
    first: i32,
    last: i32,
    work: &mut [u64],
    list: &mut [i32],
) -> Result<Size, Fault>
    ensures answer { result ≡ answer_of_measure (net_of net.now.matrix) (E.meaning encoder.now)
        (lent first last work.old list.old) }
    ensures words { work.new ≡ words_left (net_of net.now.matrix)
        (lent first last work.old list.old) work.old }
    ensures list { list.new ≡ list_left (net_of net.now.matrix)
        (lent first last work.old list.old) list.old }
{
    let numbers = check_terms(net.variables(), work.len(), first, last)?;
    let covered = cover(net, work, list)?;
    measure_covered(encoder, numbers, &list[..covered.used], covered.remaining)
}

// Covers the network, writes its clauses at the start of `out`, and answers how many clauses and auxiliaries they take.
// Whatever calls the network came by, the clauses say just what the accepted conflicts say; any other writing is alike
// from a network with the same accepted conflicts, with an equal encoder, the same numbers and a buffer as long.
pub fn write<E: Encoder>(
    net: &Sealed,
    encoder: &E,
    first: i32,
    last: i32,
    work: &mut [u64],
    list: &mut [i32],
    out: &mut [i32],
) -> Result<Size, Fault>
    ensures answer { result ≡ answer_of_write (net_of net.now.matrix) (E.meaning encoder.now)
        (lent first last work.old list.old) (length out.old) }
    ensures words { work.new ≡ words_left (net_of net.now.matrix)
        (lent first last work.old list.old) work.old }
    ensures list { list.new ≡ list_left (net_of net.now.matrix)
        (lent first last work.old list.old) list.old }
    ensures clauses { out.new ≡ clauses_left (net_of net.now.matrix) (E.meaning encoder.now)
        (lent first last work.old list.old) out.old }
    ensures every_run { EveryRun cover_of (net_of net.now.matrix) (E.meaning encoder.now)
        (lent first last work.old list.old) (length out.old) out.new result }
    ensures any_other { AnyOther cover_of (net_of net.now.matrix) (E.meaning encoder.now)
        (lent first last work.old list.old) (length out.old) out.new result }
{
    let n = net.variables();
    let numbers = check_terms(n, work.len(), first, last)?;
    let covered = cover(net, work, list)?;
    write_covered(
        encoder,
        numbers,
        &list[..covered.used],
        &rows_of(n, work),
        covered.remaining,
        out,
    )
}

// Covers the network, puts the values of the auxiliaries that go with values of the original variables, each at its number
// minus `first`, and answers how many there are. Values that break a conflict of the network are refused.
// Whatever calls the network came by, the values and the bytes satisfy every clause that a writing with the same arguments writes.
pub fn complete<E: Encoder>(
    net: &Sealed,
    encoder: &E,
    first: i32,
    last: i32,
    values: &[u8],
    work: &mut [u64],
    list: &mut [i32],
    out: &mut [u8],
) -> Result<usize, Fault>
    ensures answer { result ≡ answer_of_complete (net_of net.now.matrix) (E.meaning encoder.now)
        (lent first last work.old list.old) values.now (length out.old) }
    ensures words { work.new ≡ words_completed (net_of net.now.matrix)
        (lent first last work.old list.old) values.now work.old }
    ensures list { list.new ≡ list_completed (net_of net.now.matrix)
        (lent first last work.old list.old) values.now list.old }
    ensures bytes { out.new ≡ bytes_left (net_of net.now.matrix) (E.meaning encoder.now)
        (lent first last work.old list.old) values.now out.old }
    ensures completes { EveryCompletion cover_of (net_of net.now.matrix) (E.meaning encoder.now)
        (lent first last work.old list.old) values.now (length out.old) out.new result }
{
    let n = net.variables();
    let numbers = check_valued(n, work.len(), first, last, values)?;
    let covered = cover(net, work, list)?;
    complete_covered(
        encoder,
        numbers,
        &rows_of(n, net.words()),
        values,
        &list[..covered.used],
        out,
    )
}
