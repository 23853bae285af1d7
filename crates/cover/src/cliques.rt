// The cliques of the cover: every pair that remains is visited, and grows a clique.
ghost use Rattle.std.specs.Prelude.{◌≡◌, ℕ, ◌+◌, ◌-◌, ◌*◌, ◌/◌, ◌<◌, ◌≤◌, true, ◌&&◌, length, MatchOption, nat_le, slice_index};
ghost use Rattle.filling.specs.Filled.{after};
ghost use Rattle.filling.specs.Views.{filled};
ghost use Rattle.logic.specs.Literal.{literal};
ghost use Rattle.cover_theory.specs.Parts.{clique};
ghost use Rattle.cover_theory.specs.Rows.{marked, stands_at, listed, told};
ghost use Rattle.cover_theory.specs.Rule.{grown, visit, visits, sweep};
ghost use Rattle.cover.specs.Views.{rel_of, rel_in, Moved};

use crate::mask::Mask;
use crate::remaining::Remaining;
use crate::rows::Rows;
use crate::words::{WORD_BITS, above};
use filling::Filling;
use logic::literal_at;

// A clique has at most so many members.
pub(crate) const MOST_MEMBERS: usize = 256;

// A clique becomes a part if it has at least so many members.
const SMALLEST_CLIQUE: usize = 6;

// The literal of an index of a network. A public function would ask something of its callers, so formula has this line too.
pub(crate) fn literal_of(u: usize) -> i32
    requires { u < 8192 }
    ensures { result ≡ literal u }
{
    literal_at(u).unwrap()
}

// Whether so many numbers more have room in the list.
pub(crate) fn has_room(list: &Filling<i32>, size: usize) -> Option<()>
    ensures { MatchOption result (length (filled list.now).rest < size) (λ _. size ≤ length (filled list.now).rest) }
{
    if list.room() < size {
        return None;
    }
    Some(())
}

// The mask of the literals after w that conflict with u and with w.
fn start(rows: &Rows, u: usize, w: usize, mask: &mut Mask)
    requires { (u < rows.now.count) × (w < rows.now.count) }
    ensures { (j : ℕ) → 64 * ((w + 1) / 64) ≤ j → j < 64 * rows.now.width → marked mask.new.words j ≡ (nat_le (w + 1) j && (stands_at rows.now.words.now rows.now.width u j && stands_at rows.now.words.now rows.now.width w j)) }
{
    let from = (w + 1) / WORD_BITS;
    mask.share(rows.row(u), rows.row(w), from);
    if from < rows.width {
        mask.words[from] = above(mask.words[from], (w + 1) % WORD_BITS);
    }
}

// Grows the clique from u and w.
fn grow<'m>(
    rows: &Rows,
    u: usize,
    w: usize,
    mask: &mut Mask,
    members: &'m mut [usize; MOST_MEMBERS],
) -> &'m [usize]
    requires { (u < w) × (w < rows.now.count) }
    ensures within { length result.now ≤ 256 }
    ensures places { (i : ℕ) → i < length result.now → slice_index result.now i < rows.now.count }
    ensures grows { result.now ≡ grown rows.now.count (rel_of rows.now) u w }
{
    members[0] = u;
    members[1] = w;
    start(rows, u, w, mask);
    let mut from = w + 1;
    for k in 2..MOST_MEMBERS {
        let Some(c) = mask.first_from(from, rows.width) else {
            return &members[..k];
        };
        members[k] = c;
        mask.meet(rows.row(c), c / WORD_BITS);
        from = c + 1;
    }
    members
}

// Puts a clique into the list: its size, and its members as literals.
fn emit(list: &mut Filling<i32>, members: &[usize])
    requires room { length members.now + 1 ≤ length (filled list.old).rest }
    requires members { (length members.now ≤ 256) × ((i : ℕ) → i < length members.now → slice_index members.now i < 8192) }
    ensures { filled list.new ≡ after (filled list.old) (listed (clique members.now)) }
{
    list.push(members.len() as i32);
    for &u in members {
        list.push(literal_of(u));
    }
}

// Visits the pair u, w, which remains: its clique becomes a part if it has six members or more. None: the list is too short.
fn visit_pair(
    remaining: &mut Remaining,
    u: usize,
    w: usize,
    list: &mut Filling<i32>,
    mask: &mut Mask,
    members: &mut [usize; MOST_MEMBERS],
) -> Option<()>
    requires { (u < w) × (rel_in remaining.old u w ≡ true) }
    ensures { MatchOption result
        (length (filled list.old).put + length (filled list.old).rest < length (visit told remaining.old.count (rel_in remaining.old, (filled list.old).put) u w).1)
        (λ _. Moved remaining.old remaining.new (filled list.old) (filled list.new) (visit told remaining.old.count (rel_in remaining.old, (filled list.old).put) u w)) }
{
    let clique = grow(&remaining.rows(), u, w, mask, members);
    if clique.len() < SMALLEST_CLIQUE {
        return Some(());
    }
    has_room(list, clique.len() + 1)?;
    emit(list, clique);
    remaining.remove(clique, mask);
    Some(())
}

// Visits the pairs of u and the literals after it. A visit changes the rows, so no iterator over them can be held.
fn visit_row(
    remaining: &mut Remaining,
    u: usize,
    list: &mut Filling<i32>,
    mask: &mut Mask,
    members: &mut [usize; MOST_MEMBERS],
) -> Option<()>
    requires { u < remaining.old.count }
    ensures { MatchOption result
        (length (filled list.old).put + length (filled list.old).rest < length (visits told remaining.old.count (rel_in remaining.old, (filled list.old).put) u (remaining.old.count - (u + 1)) (u + 1)).1)
        (λ _. Moved remaining.old remaining.new (filled list.old) (filled list.new) (visits told remaining.old.count (rel_in remaining.old, (filled list.old).put) u (remaining.old.count - (u + 1)) (u + 1))) }
{
    let mut from = u + 1;
    while let Some(w) = remaining.rows().first_from(u, from) {
        visit_pair(remaining, u, w, list, mask, members)?;
        from = w + 1;
    }
    Some(())
}

// The cliques: visits every pair that remains.
pub(crate) fn find_cliques(
    remaining: &mut Remaining,
    list: &mut Filling<i32>,
    mask: &mut Mask,
    members: &mut [usize; MOST_MEMBERS],
) -> Option<()>
    ensures { MatchOption result
        (length (filled list.old).put + length (filled list.old).rest < length (sweep told remaining.old.count (rel_in remaining.old, (filled list.old).put) remaining.old.count 0).1)
        (λ _. Moved remaining.old remaining.new (filled list.old) (filled list.new) (sweep told remaining.old.count (rel_in remaining.old, (filled list.old).put) remaining.old.count 0)) }
{
    for u in 0..remaining.count {
        visit_row(remaining, u, list, mask, members)?;
    }
    Some(())
}
