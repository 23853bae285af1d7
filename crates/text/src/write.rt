// The writer: a list of numbers as text, into lent bytes.
ghost use Rattle.std.specs.Prelude.{◌≡◌, ◌+◌, ◌≤◌, [], ◌∷◌, ◌++◌, length, take, IfOk, nat_le};
ghost use Rattle.std.specs.List.{flat_map};
ghost use Rattle.dimacs.specs.Clauses.{closes, closings, exceeds, unclosed};
ghost use Rattle.dimacs.specs.File.{header_line};
ghost use Rattle.dimacs.specs.Written.{spaced, write_refusal, write_answer_of, write_answer, write_leaves};
ghost use Rattle.dimacs.specs.Laws.{ReadsBack};
ghost use Rattle.filling.specs.Filled.{after};
ghost use Rattle.filling.specs.Views.{filled};
ghost use Rattle.text.specs.Room.{room_left};

use fault::{Fault, Layer, Refusal};
use filling::Filling;
use itoa::Buffer;

// A header gives at most so many variables, nine digits,
const MOST_VARIABLES: u32 = 999_999_999;

// and at most so many clauses.
const MOST_CLAUSES: usize = 1_000_000;

// 0 closes a clause.
fn is_closing(z: i32) -> bool
    ensures { result ≡ closes z }
{
    z == 0
}

// Puts a number and what stands after it: a line ends with its closing 0.
fn put_spaced(out: &mut Filling<u8>, z: i32)
    requires { length (spaced z) ≤ length (filled out.old).rest }
    ensures { filled out.new ≡ after (filled out.old) (spaced z) }
{
    out.extend(Buffer::new().format(z).as_bytes());
    out.push(if is_closing(z) { b'\n' } else { b' ' });
}

fn put_numbers(out: &mut Filling<u8>, numbers: &[i32])
    requires { length (flat_map spaced numbers.now) ≤ length (filled out.old).rest }
    ensures { filled out.new ≡ after (filled out.old) (flat_map spaced numbers.now) }
{
    for z in numbers {
        put_spaced(out, *z);
    }
}

// Puts the header line.
fn put_header(out: &mut Filling<u8>, variables: u32, clauses: usize)
    requires { length (header_line variables clauses) + 1 ≤ length (filled out.old).rest }
    ensures { filled out.new ≡ after (filled out.old) (header_line variables clauses ++ 10 ∷ []) }
{
    let mut digits = Buffer::new();
    out.extend(b"p cnf ");
    out.extend(digits.format(variables).as_bytes());
    out.push(b' ');
    out.extend(digits.format(clauses).as_bytes());
    out.push(b'\n');
}

// How many of the numbers close a clause. Ones and zeros are added up: `filter(..).count()` branches at each number, and took up to seven times as long.
pub fn count_closings(numbers: &[i32]) -> usize
    ensures value { result ≡ closings numbers.now }
{
    numbers.iter().map(|z| usize::from(is_closing(*z))).sum()
}

// Some number is on a variable above `variables`.
fn any_above(variables: u32, numbers: &[i32]) -> bool
    ensures { result ≡ exceeds variables numbers.now }
{
    numbers.iter().any(|z| z.unsigned_abs() > variables)
}

// The last clause is not closed.
fn ends_inside(numbers: &[i32]) -> bool
    ensures { result ≡ unclosed numbers.now }
{
    numbers.last().is_some_and(|z| !is_closing(*z))
}

// How many bytes a number takes with what stands after it.
fn spaced_len(z: i32) -> usize
    ensures { result ≡ length (spaced z) }
{
    Buffer::new().format(z).len() + 1
}

// How many bytes the header line takes with its line feed.
fn header_len(variables: u32, clauses: usize) -> usize
    ensures { result ≡ length (header_line variables clauses ++ 10 ∷ []) }
{
    let mut digits = Buffer::new();
    digits.format(variables).len() + digits.format(clauses).len() + 8
}

// What `room` bytes leave after the numbers, if these have room. A `for`: `try_fold` was tried, and the proof did not close.
fn room_after(numbers: &[i32], room: usize) -> Option<usize>
    ensures { result ≡ room_left numbers.now room }
{
    let mut left = room;
    for z in numbers {
        left = left.checked_sub(spaced_len(*z))?;
    }
    Some(left)
}

// The text has room in so many bytes.
fn has_room(variables: u32, clauses: usize, numbers: &[i32], room: usize) -> bool
    ensures { result ≡ nat_le (length (header_line variables clauses ++ 10 ∷ flat_map spaced numbers.now)) room }
{
    room_after(numbers, room).is_some_and(|left| header_len(variables, clauses) <= left)
}

// Tries every refusal before a byte is written; answers the number of clauses.
fn admit(variables: u32, numbers: &[i32], room: usize) -> Result<usize, Fault>
    ensures { result ≡ write_answer_of (write_refusal variables numbers.now room) (closings numbers.now) }
{
    let clauses = count_closings(numbers);
    if variables > MOST_VARIABLES || clauses > MOST_CLAUSES {
        return Err(Fault::new(Layer::Text, Refusal::MalformedHeader));
    }
    if any_above(variables, numbers) {
        return Err(Fault::new(Layer::Text, Refusal::VariableAboveHeader));
    }
    if ends_inside(numbers) {
        return Err(Fault::new(Layer::Text, Refusal::UnexpectedEnd));
    }
    if !has_room(variables, clauses, numbers, room) {
        return Err(Fault::new(Layer::Text, Refusal::BufferShort));
    }
    Ok(clauses)
}

// Writes n and the clauses of a list of numbers, each closed by a 0, as text at the start of `out`.
// Answers how many bytes it wrote; whatever it wrote reads back as the same n and the same numbers.
pub fn write(variables: u32, numbers: &[i32], out: &mut [u8]) -> Result<usize, Fault>
    ensures answer { result ≡ write_answer variables numbers.now (length out.old) }
    ensures bytes { out.new ≡ write_leaves variables numbers.now out.old }
    ensures reads_back { IfOk result (λ size. ReadsBack variables numbers.now (take size out.new)) }
{
    let clauses = admit(variables, numbers, out.len())?;
    let mut text = Filling::new(out);
    put_header(&mut text, variables, clauses);
    put_numbers(&mut text, numbers);
    Ok(text.len)
}
