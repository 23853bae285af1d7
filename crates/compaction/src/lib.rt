// The work of the programs `compact_small` and `compact_large`: from the bytes of a file to the bytes that are printed.
//
// A file's pair clauses are collected as conflicts, covered, and written short by the encoder that its first line picks;
// all other clauses follow in their order. The contract of `compact_with_account` pins
//   `prints`      every byte that is printed, for every input, faults too
//   `compacts`    that for a file within the limits an equivalent file is printed, which reads back
//   `alike`       that any file which says the same prints the same bytes
//   `decided`     that a compacted file is printed exactly for the files within the limits
//   `never_short` that no refusal for want of room comes out
//   `account`     every figure of the account, and that there is one exactly where no fault is printed
// and `compact` hands on its bytes.
#![tactic(auto)]

mod choice;
mod file;
mod output;
mod sorting;
mod writing;

ghost use Rattle.std.specs.Prelude.{◌≡◌, ◌≤◌, [], ◌∷◌, ◌++◌, length, IfOk, if◌then◌else◌, None, Ok, Err, nat_lt};
ghost use Rattle.fault.specs.Fault.{fault_text};
ghost use Rattle.compaction_theory.specs.Choices.{most_bytes};
ghost use Rattle.compaction_theory.specs.Account.{account_in};
ghost use Rattle.compaction_theory.specs.Printed.{blank, count_fault, length_fault, variables_fit, outcome, printed};
ghost use Rattle.compaction_theory.specs.Promises.{CompactsFile, PrintsAlike, Decided};
ghost use Rattle.compaction_theory.specs.Buffers.{NeverShort};
ghost use Rattle.compaction_theory.specs.Written.{read_within};
ghost use Rattle.dimacs.specs.Laws.{Holds};
ghost use Rattle.dimacs.specs.Reading.{reading};

use choice::choice_of;
pub use compaction_theory::{Account, Scale};
use dimacs::Summary;
use fault::{Fault, Layer, Refusal};
use file::File;
use std::alloc::{AllocError, Global};
use text::read::read;

// What comes of an input: the bytes that are printed, and the account, unless they tell a fault.
#[derive(Drop)]
pub struct Compacted {
    pub bytes: Vec<u8>,
    pub account: Option<Account>,
}

// More bytes than the most are a fault there.
fn check_length(scale: Scale, len: usize) -> Result<(), Fault>
    ensures { result ≡ (if nat_lt (most_bytes scale) len then Err (length_fault scale) else Ok tt) }
{
    let most = scale.most_bytes();
    if len > most {
        return Err(Fault::in_text(Refusal::ClauseListFull, most));
    }
    Ok(())
}

// A file has at least one variable, and not too many.
fn check_variables(scale: Scale, n: u32) -> Result<(), Fault>
    ensures { result ≡ (if variables_fit scale n then Ok tt else Err count_fault) }
{
    if !(1..=scale.most_variables()).contains(&n) {
        return Err(Fault::new(Layer::Network, Refusal::VariableCount));
    }
    Ok(())
}

// Reads a text into a list, and refuses a number of variables that will not do.
fn read_within(scale: Scale, text: &[u8], numbers: &mut [i32]) -> Result<Summary, Fault>
    ensures answer { result ≡ read_within scale (reading text.now numbers.old).answer }
    ensures list { numbers.new ≡ (reading text.now numbers.old).list }
    ensures file { IfOk result (λ s. Holds text.now numbers.old s numbers.new) }
{
    let found = read(text, numbers)?;
    check_variables(scale, found.variables)?;
    Ok(found)
}

// A fault on a line of its own, with no account.
fn fault_line(heap: Global, fault: Fault) -> Result<Compacted, AllocError>
    ensures bytes { IfOk result (λ p. p.bytes.items ≡ fault_text fault ++ 10 ∷ []) }
    ensures account { IfOk result (λ p. p.account ≡ None) }
{
    let line = format!(in heap; "{fault}\n")?;
    Ok(Compacted {
        bytes: line.into_bytes(),
        account: None,
    })
}

// What is printed for an input that is not too long, which is read into these numbers.
fn compact_into(
    heap: Global,
    scale: Scale,
    text: &[u8],
    numbers: &mut [i32],
) -> Result<Compacted, AllocError>
    requires { (length text.now ≤ most_bytes scale) × (numbers.old ≡ blank scale text.now) }
    ensures prints { IfOk result (λ p. p.bytes.items ≡ printed (outcome scale text.now)) }
    ensures account { IfOk result (λ p. p.account ≡ account_in scale text.now) }
{
    let room = numbers.len();
    match read_within(scale, text, numbers) {
        Ok(found) => {
            let file = File {
                choice: choice_of(text),
                variables: found.variables as usize,
                numbers: &numbers[..found.numbers],
                room,
            };
            file.compacted(heap)
        }
        Err(fault) => fault_line(heap, fault),
    }
}

// What is printed for an input that is not too long.
fn compact_text(heap: Global, scale: Scale, text: &[u8]) -> Result<Compacted, AllocError>
    requires { length text.now ≤ most_bytes scale }
    ensures prints { IfOk result (λ p. p.bytes.items ≡ printed (outcome scale text.now)) }
    ensures account { IfOk result (λ p. p.account ≡ account_in scale text.now) }
{
    let mut numbers = vec![in heap; 0i32; scale.number_room(text.len())]?;
    compact_into(heap, scale, text, numbers.as_mut_slice())
}

// What is printed for an input: its compacted clauses or the fault. A fault is printed and not handed up, so no `?` takes it.
fn compact_input(heap: Global, scale: Scale, text: &[u8]) -> Result<Compacted, AllocError>
    ensures prints { IfOk result (λ p. p.bytes.items ≡ printed (outcome scale text.now)) }
    ensures account { IfOk result (λ p. p.account ≡ account_in scale text.now) }
{
    match check_length(scale, text.len()) {
        Ok(()) => compact_text(heap, scale, text),
        Err(fault) => fault_line(heap, fault),
    }
}

// What is printed for the bytes of a file, its compacted clauses or the fault, and the account of the compaction.
pub fn compact_with_account(
    heap: Global,
    scale: Scale,
    text: &[u8],
) -> Result<Compacted, AllocError>
    ensures prints { IfOk result (λ p. p.bytes.items ≡ printed (outcome scale text.now)) }
    ensures compacts { IfOk result (λ p. CompactsFile scale text.now p.bytes.items) }
    ensures alike { IfOk result (λ p. PrintsAlike scale text.now p.bytes.items) }
    ensures decided { Decided scale text.now }
    ensures never_short { NeverShort }
    ensures account { IfOk result (λ p. p.account ≡ account_in scale text.now) }
{
    compact_input(heap, scale, text)
}

// What is printed for the bytes of a file: its compacted clauses, or the fault.
pub fn compact(heap: Global, scale: Scale, text: &[u8]) -> Result<Vec<u8>, AllocError>
    ensures prints { IfOk result (λ v. v.items ≡ printed (outcome scale text.now)) }
    ensures compacts { IfOk result (λ v. CompactsFile scale text.now v.items) }
    ensures alike { IfOk result (λ v. PrintsAlike scale text.now v.items) }
    ensures decided { Decided scale text.now }
    ensures never_short { NeverShort }
{
    let Compacted { bytes, account: _ } = compact_with_account(heap, scale, text)?;
    Ok(bytes)
}
