// The work of the program `compact`: from the bytes of a file to the bytes that it prints.
//
// For now it reads a DIMACS file and prints the same clauses in the written form, or the fault on one line.
#![tactic(auto)]

ghost use Rattle.std.specs.Prelude.{◌≡◌, ℕ, ◌<◌, ◌≤◌, List, [], ◌∷◌, ◌++◌, length, replicate, pos, IfOk, if◌then◌else◌, Ok, Err, vec_len, nat_lt};
ghost use Rattle.fault.specs.Fault.{fault_text};
ghost use Rattle.dimacs.specs.Reading.{fault_at};
ghost use Rattle.compactor.specs.Printed.{count_fault, few_variables, empty_list, outcome, size_of, over, printed};
ghost use Rattle.compactor.specs.Kept.{KeepsClauses};

use fault::{Fault, Layer, Refusal};
use std::alloc::{AllocError, Global};
use text::read::read;
use text::write::write;

// The limits of the program: bytes of input, variables, and numbers of a buffer.
pub const MAX_BYTES: usize = 65_536;

const MAX_VARIABLES: u32 = 256;

const MAX_NUMBERS: usize = 16_384;
// A header takes at most 18 bytes, and a number of at most three digits at most 5.
const MAX_OUTPUT: usize = 81_938;

// `compaction` has functions like the next ones: there the limits go by a scale, and an account is answered too.
// More bytes than the limit are a fault at the limit.
fn check_length(len: usize) -> Result<(), Fault>
    ensures { result ≡ (if nat_lt 65_536 len then Err (fault_at Refusal.ClauseListFull 65_536) else Ok tt) }
{
    if len > MAX_BYTES {
        return Err(Fault::in_text(Refusal::ClauseListFull, MAX_BYTES));
    }
    Ok(())
}

// A file has from 1 to 256 variables.
fn check_variables(n: u32) -> Result<(), Fault>
    ensures { result ≡ (if few_variables n then Ok tt else Err count_fault) }
{
    if !(1..=MAX_VARIABLES).contains(&n) {
        return Err(Fault::new(Layer::Network, Refusal::VariableCount));
    }
    Ok(())
}

// Reads a text and writes it again at the start of `out`; answers how many bytes it takes.
fn rewrite(text: &[u8], numbers: &mut [i32], out: &mut [u8]) -> Result<usize, Fault>
    requires { (numbers.old ≡ empty_list) × (length out.old ≡ 81_938) }
    ensures answer { result ≡ size_of (outcome text.now) }
    ensures bytes { out.new ≡ over (outcome text.now) out.old }
{
    check_length(text.len())?;
    let found = read(text, numbers)?;
    check_variables(found.variables)?;
    write(found.variables, &numbers[..found.numbers], out)
}

// A fault on a line of its own.
fn fault_line(heap: Global, fault: Fault) -> Result<Vec<u8>, AllocError>
    ensures { IfOk result (λ v. v.items ≡ fault_text fault ++ 10 ∷ []) }
{
    let line = format!(in heap; "{fault}\n")?;
    Ok(line.into_bytes())
}

// What the program prints for the bytes of a file: the same clauses in the written form, or the fault.
pub fn compact(heap: Global, text: &[u8]) -> Result<Vec<u8>, AllocError>
    ensures prints { IfOk result (λ v. v.items ≡ printed (outcome text.now)) }
    ensures keeps { IfOk result (λ v. KeepsClauses text.now v.items) }
{
    let mut numbers = vec![in heap; 0i32; MAX_NUMBERS]?;
    let mut out = vec![in heap; 0u8; MAX_OUTPUT]?;
    match rewrite(text, numbers.as_mut_slice(), out.as_mut_slice()) {
        Ok(size) => {
            out.truncate(size);
            Ok(out)
        }
        Err(fault) => fault_line(heap, fault),
    }
}
