// Encoders of "at most one of the members is true": one trait with four total calls, whose meaning keeps five laws,
// and the checks that decide what a call admits, which every encoder is given.
// Whoever writes an encoder gives its meaning, proves the laws, and refuses by `check_count`, `check_write` and `check_values`.
#![tactic(auto)]

ghost use Rattle.std.specs.Prelude.{◌≡◌, ◌+◌, ◌*◌, min, nat_le, pos, unsigned_abs, length, [], ◌∷◌};
ghost use Rattle.encoder_theory.specs.Meaning.{Meaning, last_end};
ghost use Rattle.encoder_theory.specs.Laws.{Lawful};
ghost use Rattle.encoder_theory.specs.Calls.{uses, is_proper, is_admitted, is_placed, answer, told, clauses_fit, write_answer, write_leaves, values_answer, values_leaves};
ghost use Rattle.encoder_theory.specs.Appended.{clauses_appended, values_appended};
ghost use Rattle.encoder_theory.specs.Buffer.{with_clause};
ghost use Rattle.filling.specs.Filled.{extended};
ghost use Rattle.filling.specs.Views.{filled};

use fault::{Fault, Layer, Refusal};
use filling::Filling;

// An encoder takes at most so many members.
pub const MOST_MEMBERS: usize = 256;

// The first number past an encoder's auxiliaries is at most this.
pub const LAST_END: usize = 1_000_000_001;

// Number 12: the members, the first number or the place will not do. A constant cannot call `Fault::new`.
const UNFIT: Fault = Fault {
    refusal: Refusal::UnfitMembers,
    layer: Layer::Encoder,
    place: 0,
};

// Number 10: the buffer is too short.
const SHORT: Fault = Fault {
    refusal: Refusal::BufferShort,
    layer: Layer::Encoder,
    place: 0,
};

// A call declines with 12 what it does not admit, and then with 10 a buffer that is too short; a declined call changes nothing.
pub trait Encoder {
    // the numbers of clauses and auxiliaries, the clauses, and the auxiliaries' values
    ghost meaning: { Self → Meaning };

    // Tells the number of clauses.
    fn clauses(&self, members: usize) -> Result<usize, Fault>
        ensures { result ≡ told members ((meaning self.now).clauses members) };

    // Tells the number of auxiliaries.
    fn auxiliaries(&self, members: usize) -> Result<usize, Fault>
        ensures { result ≡ told members ((meaning self.now).auxiliaries members) };

    // Writes the clauses at the start of `out`, two numbers each, with auxiliaries from `first` on.
    fn write(&self, members: &[i32], first: i32, out: &mut [i32]) -> Result<(), Fault>
        ensures answers { result ≡ write_answer (meaning self.now) members.now first out.old }
        ensures leaves { out.new ≡ write_leaves (meaning self.now) members.now first out.old };

    // Declines what `write` declines, in a buffer of so many numbers; answers `first`.
    fn check_write(&self, members: &[i32], first: i32, room: usize) -> Result<u32, Fault>
        ensures { result ≡ answer (clauses_fit (meaning self.now) members.now first) (nat_le (2 * (meaning self.now).clauses (length members.now)) room) (unsigned_abs first) }
    {
        let clauses = self.clauses(members.len())?;
        let auxiliaries = self.auxiliaries(members.len())?;
        check_members(members, first, auxiliaries, clauses, room)
    }

    // Puts the auxiliaries' values at the start of `out`, as bytes 0 and 1, for the place of the one true member or for none.
    fn values(&self, members: usize, place: Option<usize>, out: &mut [u8]) -> Result<(), Fault>
        ensures answers { result ≡ values_answer (meaning self.now) members place out.old }
        ensures leaves { out.new ≡ values_leaves (meaning self.now) members place out.old };

    // Declines what `values` declines, in a buffer of so many bytes.
    fn check_values(&self, members: usize, place: Option<usize>, room: usize) -> Result<(), Fault>
        ensures { result ≡ answer (is_placed members place) (nat_le ((meaning self.now).auxiliaries members) room) tt }
    {
        let auxiliaries = self.auxiliaries(members)?;
        check_place(members, place, auxiliaries, room)
    }

    ghost lawful: { (e : Self) → Lawful (meaning e) };
}

// Declines more members than an encoder takes.
pub fn check_count(members: usize) -> Result<usize, Fault>
    ensures { result ≡ told members members }
{
    if members > MOST_MEMBERS {
        Err(UNFIT)
    } else {
        Ok(members)
    }
}

// Whether a member is on the variable.
fn is_used(members: &[i32], variable: u32) -> bool
    ensures { result ≡ uses members.now variable }
{
    members
        .iter()
        .any(|member| member.unsigned_abs() == variable)
}

// Whether the members are literals on distinct variables below `first`.
fn are_proper(members: &[i32], first: u32) -> bool
    ensures { result ≡ is_proper members.now first }
{
    for (i, member) in members.iter().enumerate() {
        let variable = member.unsigned_abs();
        if variable == 0 || variable >= first || is_used(&members[..i], variable) {
            return false;
        }
    }
    true
}

// Whether a call admits the members, with so many auxiliaries from `first` on.
fn are_admitted(members: &[i32], first: i32, auxiliaries: usize) -> bool
    ensures { result ≡ is_admitted members.now first auxiliaries }
{
    if members.len() > MOST_MEMBERS || first < 1 {
        return false;
    }
    let first = first as u32;
    if auxiliaries > LAST_END || first as usize + auxiliaries > LAST_END {
        return false;
    }
    are_proper(members, first)
}

// Declines members that no call admits, and then a buffer of too few numbers for the clauses; answers `first`.
pub fn check_members(
    members: &[i32],
    first: i32,
    auxiliaries: usize,
    clauses: usize,
    room: usize,
) -> Result<u32, Fault>
    ensures { result ≡ answer (is_admitted members.now first auxiliaries) (nat_le (2 * clauses) room) (unsigned_abs first) }
{
    if !are_admitted(members, first, auxiliaries) {
        return Err(UNFIT);
    }
    if room / 2 < clauses {
        return Err(SHORT);
    }
    Ok(first.unsigned_abs())
}

// Whether a call admits the place among so many members.
fn is_placed(members: usize, place: Option<usize>) -> bool
    ensures { result ≡ is_placed members place }
{
    members <= MOST_MEMBERS && place.is_none_or(|t| t < members)
}

// Declines a place that no call admits, and then a buffer of too few bytes for the values.
pub fn check_place(
    members: usize,
    place: Option<usize>,
    auxiliaries: usize,
    room: usize,
) -> Result<(), Fault>
    ensures { result ≡ answer (is_placed members place) (nat_le auxiliaries room) tt }
{
    if !is_placed(members, place) {
        return Err(UNFIT);
    }
    if room < auxiliaries {
        return Err(SHORT);
    }
    Ok(())
}

// The auxiliary at a place, as a literal. None lies past the last end that a call admits.
pub fn auxiliary_literal(first: u32, i: usize) -> i32
    ensures { result ≡ pos (min (first + i) last_end) }
{
    (first as usize).saturating_add(i).min(LAST_END) as i32
}

// Puts a clause at the numbers `at` and `at` + 1; a buffer that has not both stays as it is.
pub fn put_clause(out: &mut [i32], at: usize, clause: (i32, i32))
    ensures { out.new ≡ with_clause out.old at clause }
{
    if at < out.len() && at + 1 < out.len() {
        out[at] = clause.0;
        out[at + 1] = clause.1;
    }
}

// Puts a clause next, its two literals, if there is room for both.
pub fn push_clause(out: &mut Filling<i32>, clause: (i32, i32))
    ensures { filled out.new ≡ extended (filled out.old) (clause.0 ∷ clause.1 ∷ []) }
{
    if out.room() >= 2 {
        put_clause(out.buffer, out.len, clause);
        out.len += 2;
    }
}

// Puts an encoder's clauses next, as its own `write` does at the start of a buffer.
pub fn append_clauses<E: Encoder>(
    encoder: &E,
    members: &[i32],
    first: i32,
    out: &mut Filling<i32>,
) -> Result<(), Fault>
    ensures answers { result ≡ write_answer (E.meaning encoder.now) members.now first (filled out.old).rest }
    ensures leaves { filled out.new ≡ clauses_appended (E.meaning encoder.now) members.now first (filled out.old) }
{
    let clauses = encoder.clauses(members.len())?;
    encoder.write(members, first, &mut out.buffer[out.len..])?;
    out.len += 2 * clauses;
    Ok(())
}

// Puts an encoder's values next, as its own `values` does at the start of a buffer.
pub fn append_values<E: Encoder>(
    encoder: &E,
    members: usize,
    place: Option<usize>,
    out: &mut Filling<u8>,
) -> Result<(), Fault>
    ensures answers { result ≡ values_answer (E.meaning encoder.now) members place (filled out.old).rest }
    ensures leaves { filled out.new ≡ values_appended (E.meaning encoder.now) members place (filled out.old) }
{
    let auxiliaries = encoder.auxiliaries(members)?;
    encoder.values(members, place, &mut out.buffer[out.len..])?;
    out.len += auxiliaries;
    Ok(())
}
