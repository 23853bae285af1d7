// The bicliques of the cover.
ghost use Rattle.std.specs.Prelude.{◌≡◌, ℕ, ◌+◌, ◌*◌, ◌<◌, ◌≤◌, ◌||◌, map, length, if◌then◌else◌, MatchOption, nat_le, nat_lt, slice_index};
ghost use Rattle.filling.specs.Filled.{after};
ghost use Rattle.filling.specs.Views.{filled};
ghost use Rattle.logic.specs.Literal.{literal};
ghost use Rattle.cover_theory.specs.Lies.{minus};
ghost use Rattle.cover_theory.specs.Rows.{Degrees, SidesIn, sides_part, marked, listed, told, held, Neat, Widens};
ghost use Rattle.cover_theory.specs.Rule.{count as counted, shared, score, chosen, better, those, first_best, everyone, started_by, grown_sides, without_sides, bicliques};
ghost use Rattle.cover.specs.Views.{rel_of, rel_in, Moved};

use crate::cliques::{has_room, literal_of};
use crate::mask::{Mask, Sides};
use crate::remaining::Remaining;
use crate::rows::Rows;
use crate::words::MOST_LITERALS;
use filling::Filling;

fn score_of(rows: &Rows, c: usize, sides: &Sides) -> usize
    requires { c < rows.now.count }
    ensures { result ≡ score rows.now.count (rel_of rows.now) (held rows.now.count sides.now.left.words) (held rows.now.count sides.now.right.words) c }
{
    if sides.left.contains(c) {
        0
    } else {
        rows.common(c, &sides.right) + 1
    }
}

// A score has to be larger to win, so that the lowest wins at ties.
fn beats(s: usize, top: usize) -> bool
    ensures { result ≡ nat_lt top s }
{
    top < s
}

// The gain of x literals against y is not above 0.
fn no_gain(x: usize, y: usize) -> bool
    requires { (x ≤ 8192) × (y ≤ 8192) }
    ensures { result ≡ nat_le (x * y) (x + y) }
{
    x * y <= x + y
}

// One more literal on the left, which leaves d on the right, makes the gain of x against y larger.
fn improves(x: usize, y: usize, d: usize) -> bool
    requires { (x ≤ 8192) × ((y ≤ 8192) × (d ≤ 8192)) }
    ensures { result ≡ better x y (x + 1) d }
{
    x * y + (x + 1) + d < (x + 1) * d + x + y
}

// The score of `c`, or some number up to `top` if the score is not above `top`. No score is more than one above the degree.
fn score_above(
    rows: &Rows,
    degrees: &[u16; MOST_LITERALS],
    c: usize,
    sides: &Sides,
    top: usize,
) -> usize
    requires literal { c < rows.now.count }
    requires degrees { Degrees rows.now.count (rel_of rows.now) degrees.now }
    ensures above { top < result → result ≡ score rows.now.count (rel_of rows.now) (held rows.now.count sides.now.left.words) (held rows.now.count sides.now.right.words) c }
    ensures below { result ≤ top → score rows.now.count (rel_of rows.now) (held rows.now.count sides.now.left.words) (held rows.now.count sides.now.right.words) c ≤ top }
{
    if degrees[c] as usize + 1 <= top {
        return 0;
    }
    score_of(rows, c, sides)
}

// The literal outside the left with most conflicts into the right, the lowest at ties.
// A loop, since the best so far lets most scores go uncounted: `max_by_key` would count each.
fn pick(rows: &Rows, degrees: &[u16; MOST_LITERALS], sides: &Sides) -> usize
    requires some { 0 < rows.now.count }
    requires degrees { Degrees rows.now.count (rel_of rows.now) degrees.now }
    ensures value { result ≡ chosen rows.now.count (rel_of rows.now) (held rows.now.count sides.now.left.words) (held rows.now.count sides.now.right.words) }
    ensures bound { result < rows.now.count }
{
    let mut best = 0;
    let mut top = score_of(rows, 0, sides);
    for c in 0..rows.count {
        let s = score_above(rows, degrees, c, sides, top);
        if beats(s, top) {
            best = c;
            top = s;
        }
    }
    best
}

// The sides grow as long as the gain does.
fn widen_sides(rows: &Rows, degrees: &[u16; MOST_LITERALS], sides: &mut Sides)
    requires some { 0 < rows.now.count }
    requires degrees { Degrees rows.now.count (rel_of rows.now) degrees.now }
    requires left { Neat rows.now.count rows.now.width sides.old.left.words }
    requires right { Neat rows.now.count rows.now.width sides.old.right.words }
    ensures left { Neat rows.now.count rows.now.width sides.new.left.words }
    ensures right { Neat rows.now.count rows.now.width sides.new.right.words }
    ensures sides { Widens rows.now.count (rel_of rows.now) sides.old.left.words sides.old.right.words sides.new.left.words sides.new.right.words }
{
    for _step in 0..rows.count {
        let c = pick(rows, degrees, sides);
        let x = sides.left.len(rows.width);
        let y = sides.right.len(rows.width);
        if !improves(x, y, rows.common(c, &sides.right)) {
            return;
        }
        sides.left.insert(c);
        sides.right.meet(rows.row(c), 0);
    }
}

// Puts the literals of a mask into the list, by index.
fn emit_side(list: &mut Filling<i32>, mask: &Mask, count: usize)
    requires few { count ≤ 8192 }
    requires room { counted (held count mask.now.words) count 0 ≤ length (filled list.old).rest }
    ensures { filled list.new ≡ after (filled list.old) (map literal (those (held count mask.now.words) count 0)) }
{
    for u in 0..count {
        if mask.contains(u) {
            list.push(literal_of(u));
        }
    }
}

// Counts the remaining conflicts of each literal.
fn count_degrees(rows: &Rows, degrees: &mut [u16; MOST_LITERALS])
    ensures { Degrees rows.now.count (rel_of rows.now) degrees.new }
{
    for u in 0..rows.count {
        degrees[u] = rows.degree(u) as u16;
    }
}

// The literal of the largest degree, the lowest at ties.
// A loop as in `pick`: `max_by_key` keeps the last of equals, so it would have to go through the literals in reverse.
fn fullest(degrees: &[u16; MOST_LITERALS], count: usize) -> usize
    requires { (0 < count) × (count ≤ 8192) }
    ensures value { result ≡ first_best (λ c. slice_index degrees.now c + 1) count 0 0 }
    ensures bound { result < count }
{
    let mut best = 0;
    let mut top = degrees[0] as usize + 1;
    for c in 0..count {
        let s = degrees[c] as usize + 1;
        if beats(s, top) {
            best = c;
            top = s;
        }
    }
    best
}

// The left is c alone, and the right all that c still conflicts with.
fn start_sides(rows: &Rows, c: usize, sides: &mut Sides)
    requires { c < rows.now.count }
    ensures { SidesIn rows.now.count rows.now.width sides.new.left.words sides.new.right.words (started_by rows.now.count (rel_of rows.now) c) }
{
    sides.left.clear(rows.width);
    sides.left.insert(c);
    sides.right.copy_row(rows.row(c));
}

// The sides that grow from the fullest literal.
fn grow_sides(rows: &Rows, degrees: &[u16; MOST_LITERALS], sides: &mut Sides)
    requires some { 0 < rows.now.count }
    requires degrees { Degrees rows.now.count (rel_of rows.now) degrees.now }
    ensures { SidesIn rows.now.count rows.now.width sides.new.left.words sides.new.right.words (grown_sides rows.now.count (rel_of rows.now)) }
{
    start_sides(rows, fullest(degrees, rows.count), sides);
    widen_sides(rows, degrees, sides);
}

// Counts anew the degrees of the literals on either side.
fn recount(rows: &Rows, degrees: &mut [u16; MOST_LITERALS], sides: &Sides)
    ensures { (u : ℕ) → u < rows.now.count → slice_index degrees.new u ≡ (if marked sides.now.left.words u || marked sides.now.right.words u then counted (shared (rel_of rows.now) (everyone rows.now.count) u) rows.now.count 0 else slice_index degrees.old u) }
{
    for u in 0..rows.count {
        if sides.contains(u) {
            degrees[u] = rows.degree(u) as u16;
        }
    }
}

// Minus a size.
fn negated(x: usize) -> i32
    requires { x ≤ 8192 }
    ensures { result ≡ minus x }
{
    -(x as i32)
}

// Puts a biclique of x literals against y into the list.
fn emit_sides(list: &mut Filling<i32>, count: usize, sides: &Sides, x: usize, y: usize)
    requires room { (count ≤ 8192) × (x + y + 2 ≤ length (filled list.old).rest) }
    requires left { (x ≡ counted (held count sides.now.left.words) count 0) × (x ≤ 8192) }
    requires right { (y ≡ counted (held count sides.now.right.words) count 0) × (y ≤ 8192) }
    ensures { filled list.new ≡ after (filled list.old) (listed (sides_part count sides.now.left.words sides.now.right.words)) }
{
    list.push(negated(x));
    list.push(y as i32);
    emit_side(list, &sides.left, count);
    emit_side(list, &sides.right, count);
}

// Puts the sides into the list, if it has room for them, and takes their conflicts away. None: the list is too short.
fn take_sides(
    remaining: &mut Remaining,
    list: &mut Filling<i32>,
    sides: &Sides,
    x: usize,
    y: usize,
) -> Option<()>
    requires left { (x ≡ counted (held remaining.old.count sides.now.left.words) remaining.old.count 0) × (x ≤ 8192) }
    requires right { (y ≡ counted (held remaining.old.count sides.now.right.words) remaining.old.count 0) × (y ≤ 8192) }
    ensures { MatchOption result
        (length (filled list.old).put + length (filled list.old).rest < length (told (filled list.old).put (sides_part remaining.old.count sides.now.left.words sides.now.right.words)))
        (λ _. Moved remaining.old remaining.new (filled list.old) (filled list.new) (without_sides (rel_in remaining.old) (held remaining.old.count sides.now.left.words, held remaining.old.count sides.now.right.words), told (filled list.old).put (sides_part remaining.old.count sides.now.left.words sides.now.right.words))) }
{
    has_room(list, x + y + 2)?;
    emit_sides(list, remaining.count, sides, x, y);
    remaining.sever(sides);
    Some(())
}

// The bicliques: one after the other, as long as there is a gain. None: the list is too short.
pub(crate) fn find_bicliques(
    remaining: &mut Remaining,
    list: &mut Filling<i32>,
    sides: &mut Sides,
    degrees: &mut [u16; MOST_LITERALS],
) -> Option<()>
    requires { 0 < remaining.old.count }
    ensures { MatchOption result
        (length (filled list.old).put + length (filled list.old).rest < length (bicliques told remaining.old.count (remaining.old.count * remaining.old.count) (rel_in remaining.old, (filled list.old).put)).1)
        (λ _. Moved remaining.old remaining.new (filled list.old) (filled list.new) (bicliques told remaining.old.count (remaining.old.count * remaining.old.count) (rel_in remaining.old, (filled list.old).put))) }
{
    count_degrees(&remaining.rows(), degrees);
    for _step in 0..remaining.count * remaining.count {
        grow_sides(&remaining.rows(), degrees, sides);
        let x = sides.left.len(remaining.width);
        let y = sides.right.len(remaining.width);
        if no_gain(x, y) {
            break;
        }
        take_sides(remaining, list, sides, x, y)?;
        recount(&remaining.rows(), degrees, sides);
    }
    Some(())
}
