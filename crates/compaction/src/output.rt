// The output: the numbers of the written clauses, and the text of numbers.
ghost use Rattle.std.specs.Prelude.{◌≡◌, ◌*◌, ◌≤◌, List, ◌++◌, map, length, ℤ, IfOk, None, OnOk};
ghost use Rattle.logic.specs.Clause.{Clause, flat};
ghost use Rattle.dimacs.specs.Clauses.{numbers as numbers_of};
ghost use Rattle.dimacs.specs.Written.{text_of, write_refusal, write_leaves_of};
ghost use Rattle.compaction_theory.specs.Printed.{literals_of};

use std::alloc::{AllocError, Global};
use text::write::write;

// Copies so many clauses of two literals, each with a 0 that closes it.
pub(crate) fn copy_written(
    written: &[i32],
    clauses: usize,
    out: &mut Vec<i32>,
) -> Result<(), AllocError>
    requires { 2 * clauses ≤ length written.now }
    ensures { OnOk result ((W : List Clause) (rest : List ℤ) → length W ≡ clauses → written.now ≡ flat W ++ rest → out.new.items ≡ out.old.items ++ numbers_of (map literals_of W)) }
{
    for clause in written[..2 * clauses].chunks_exact(2) {
        out.extend_from_slice(clause)?;
        out.push(0)?;
    }
    Ok(())
}

// Writes a text that has room; answers its length.
fn put_text(variables: u32, numbers: &[i32], out: &mut [u8]) -> usize
    requires { write_refusal variables numbers.now (length out.old) ≡ None }
    ensures size { result ≡ length (text_of variables numbers.now) }
    ensures bytes { out.new ≡ write_leaves_of None (text_of variables numbers.now) out.old }
{
    write(variables, numbers, out).unwrap()
}

// The text of n variables and these clauses, which has room in so many bytes.
pub(crate) fn text_of(
    heap: Global,
    variables: u32,
    numbers: &[i32],
    room: usize,
) -> Result<Vec<u8>, AllocError>
    requires { write_refusal variables numbers.now room ≡ None }
    ensures { IfOk result (λ v. v.items ≡ text_of variables numbers.now) }
{
    let mut out = vec![in heap; 0u8; room]?;
    let size = put_text(variables, numbers, out.as_mut_slice());
    out.truncate(size);
    Ok(out)
}
