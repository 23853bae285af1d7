// The cover of a sealed network: its conflicts in cliques, then bicliques, and those that remain.
// The contract of `cover` pins
//   `answer`     what it answers, and when it is refused
//   `words`      every work word that it leaves
//   `list`       every number of the list that it leaves
//   `partition`  the law: every conflict of the network is in exactly one part or remains, and nothing else is
//   `ended`      that no biclique with a gain is left to take, and no growth was cut short
//   `alone`      that the cover depends on the number of variables and the conflicts alone
#![tactic(auto)]

mod bicliques;
mod cliques;
mod mask;
mod phases;
mod remaining;
mod rows;
mod words;

ghost use Rattle.std.specs.Prelude.{◌≡◌, ℕ, ◌+◌, ◌*◌, ◌^◌, ◌<◌, ◌≤◌, true, ◌↔◌, List, [], ◌∷◌, ◌++◌, length, drop, replicate, ℤ, pos, Some};
ghost use Rattle.network_theory.specs.Layout.{words_needed, Conflict, Mutual, Apart, Trimmed};
ghost use Rattle.network_theory.specs.Calls.{most_variables};
ghost use Rattle.network.specs.Views.{net_of};
ghost use Rattle.cover_theory.specs.Parts.{Partition, Part as PartOf};
ghost use Rattle.cover.specs.Outcome.{net_in, conflicts_of, cover_of_net, remaining_of, cover_answer, work_after, list_after};
ghost use Rattle.cover.specs.Walk.{placed, end_of, within, part_at, cliques_in, bicliques_in, parts_in, summed};
ghost use Rattle.cover_theory.specs.Lies.{numbers_of, numbers, clique_count, biclique_count};
ghost use Rattle.cover_theory.specs.Rows.{Sized};
ghost use Rattle.cover_theory.specs.Rule.{Ended, GrowthSettles};

use fault::{Fault, Layer, Refusal};
use filling::Filling;
use network::{Sealed, row_words};
use phases::find_parts;
use remaining::Remaining;
pub use rows::{Conflicts, Rows};

// What a cover counts: its cliques, its bicliques, the conflicts that remain, and the numbers of the list that its parts take.
#[derive(Clone, Copy, PartialEq, Eq, Debug)]
pub struct Covered {
    pub cliques: usize,
    pub bicliques: usize,
    pub remaining: usize,
    pub used: usize,
}

// A part of the cover in the list: where its members begin, and how many it has of each kind.
#[derive(Clone, Copy, PartialEq, Eq, Debug)]
pub enum Part {
    Clique {
        at: usize,
        size: usize,
    },
    Biclique {
        at: usize,
        left: usize,
        right: usize,
    },
}

// The part that begins at a place of the list, if one does.
fn read_part(list: &[i32], at: usize) -> Option<Part>
    ensures { result ≡ part_at list.now at }
{
    let head = *list.get(at)?;
    if head > 0 {
        let size = head.unsigned_abs() as usize;
        return Part::Clique { at: at + 1, size }.within(list.len());
    }
    let next = *list.get(at + 1)?;
    if head == 0 || next < 0 {
        return None;
    }
    let (left, right) = (head.unsigned_abs() as usize, next.unsigned_abs() as usize);
    Part::Biclique {
        at: at + 2,
        left,
        right,
    }
    .within(list.len())
}

// The part that begins at a place of the list, if one does: where the numbers of a part stand, that part is read.
pub fn part_at(list: &[i32], at: usize) -> Option<Part>
    ensures value { result ≡ part_at list.now at }
    ensures reads { (P : PartOf ℤ) (rest : List ℤ) → Sized (P ∷ []) → drop at list.now ≡ numbers_of P ++ rest → (result ≡ Some (placed at P)) × (drop (end_of (placed at P)) list.now ≡ rest) }
{
    read_part(list, at)
}

impl Part {
    // The place after the part.
    fn end(self) -> usize
        requires { end_of self < 2 ^ 64 }
        ensures { result ≡ end_of self }
    {
        match self {
            Part::Clique { at, size } => at + size,
            Part::Biclique { at, left, right } => at + left + right,
        }
    }

    // The part, if it lies within so many numbers.
    fn within(self, room: usize) -> Option<Part>
        requires { end_of self < 2 ^ 64 }
        ensures { result ≡ within room self }
    {
        if self.end() <= room { Some(self) } else { None }
    }
}

// The parts of a list, one after the other, up to the first place where none begins.
#[derive(Drop)]
pub struct Parts<'a> {
    list: &'a [i32],
    at: usize,
}

impl<'a> Iterator for Parts<'a> {
    ghost use Rattle.std.specs.Iterator.{YieldsFirst, item_count};
    ghost use Rattle.cover.specs.Left.{parts_left};

    type Item = Part;

    ghost next_gives = { YieldsFirst parts_left };

    ghost remaining = { item_count parts_left };

    fn next(&mut self) -> Option<Part> {
        let part = part_at(self.list, self.at)?;
        self.at = part.end();
        Some(part)
    }
}

impl<'a> Parts<'a> {
    ghost use Rattle.cover.specs.Left.{parts_left};

    // The parts of a list from its start on.
    pub fn new(list: &'a [i32]) -> Parts<'a>
        ensures { parts_left result ≡ parts_in list.now }
    {
        Parts { list, at: 0 }
    }
}

// How many cliques and bicliques are read one after the other from the start of the list: where it holds a cover's parts, as many as those.
pub fn count_parts(list: &[i32]) -> (usize, usize)
    ensures value { result ≡ (summed cliques_in (parts_in list.now), summed bicliques_in (parts_in list.now)) }
    ensures reads { (Ps : List (PartOf ℤ)) (z : ℕ) → Sized Ps → list.now ≡ numbers Ps ++ replicate z (pos 0) → (result.0 ≡ clique_count Ps) × (result.1 ≡ biclique_count Ps) }
{
    let mut cliques = 0;
    let mut bicliques = 0;
    for part in Parts::new(list) {
        match part {
            Part::Clique { .. } => cliques += 1,
            Part::Biclique { .. } => bicliques += 1,
        }
    }
    (cliques, bicliques)
}

// Covers the conflicts of `n` variables that lie in `words`, with just as many work words as they need.
fn cover_exactly(
    n: usize,
    words: &[u64],
    work: &mut [u64],
    list: &mut [i32],
) -> Result<Covered, Fault>
    requires size { (n ≤ most_variables) × ((words_needed n ≤ length words.now) × (length work.old ≡ words_needed n)) }
    requires network { (Mutual (net_in n words.now)) × ((Apart (net_in n words.now)) × (Trimmed (net_in n words.now))) }
    ensures answer { result ≡ cover_answer (net_in n words.now) (length work.old) (length list.old) }
    ensures words { work.new ≡ work_after (net_in n words.now) work.old (length list.old) }
    ensures list { list.new ≡ list_after (net_in n words.now) (length work.old) list.old }
{
    work.copy_from_slice(&words[..work.len()]);
    let mut remaining = Remaining {
        words: work,
        width: row_words(n),
        count: 2 * n,
    };
    let mut parts = Filling::new(list);
    if find_parts(&mut remaining, &mut parts).is_none() {
        work.fill(0);
        list.fill(0);
        return Err(Fault::new(Layer::Cover, Refusal::PartListShort));
    }
    let left = remaining.rows().conflicts();
    let used = parts.len;
    list[used..].fill(0);
    let (cliques, bicliques) = count_parts(list);
    Ok(Covered {
        cliques,
        bicliques,
        remaining: left,
        used,
    })
}

// Covers the conflicts of `n` variables that lie in `words`.
fn cover_words(
    n: usize,
    words: &[u64],
    work: &mut [u64],
    list: &mut [i32],
) -> Result<Covered, Fault>
    requires size { (n ≤ most_variables) × (words_needed n ≤ length words.now) }
    requires network { (Mutual (net_in n words.now)) × ((Apart (net_in n words.now)) × (Trimmed (net_in n words.now))) }
    ensures answer { result ≡ cover_answer (net_in n words.now) (length work.old) (length list.old) }
    ensures words { work.new ≡ work_after (net_in n words.now) work.old (length list.old) }
    ensures list { list.new ≡ list_after (net_in n words.now) (length work.old) list.old }
{
    let needed = 2 * n * row_words(n);
    if work.len() < needed {
        return Err(Fault::new(Layer::Network, Refusal::WordsShort));
    }
    cover_exactly(n, words, &mut work[0..needed], list)
}

// Covers a sealed network. Refused if the work words are too few (2: nothing changes), or the list too short for the parts
// (8: the needed work words and the whole list are zero). Otherwise the list holds the parts, and the needed work words what remains.
pub fn cover(net: &Sealed, work: &mut [u64], list: &mut [i32]) -> Result<Covered, Fault>
    ensures answer { result ≡ cover_answer (net_of net.now.matrix) (length work.old) (length list.old) }
    ensures words { work.new ≡ work_after (net_of net.now.matrix) work.old (length list.old) }
    ensures list { list.new ≡ list_after (net_of net.now.matrix) (length work.old) list.old }
    ensures partition { Partition (net_of net.now.matrix).variables (Conflict (net_of net.now.matrix)) (cover_of_net (net_of net.now.matrix)) }
    ensures within { (u w : ℕ) → remaining_of (net_of net.now.matrix) u w ≡ true → conflicts_of (net_of net.now.matrix) u w ≡ true }
    ensures ended { (Ended (2 * (net_of net.now.matrix).variables) (remaining_of (net_of net.now.matrix))) × (GrowthSettles) }
    ensures alone { (words : List ℕ) → ((a b : ℤ) → Conflict (net_of net.now.matrix) a b ↔ Conflict (net_in (net_of net.now.matrix).variables words) a b) → cover_of_net (net_of net.now.matrix) ≡ cover_of_net (net_in (net_of net.now.matrix).variables words) }
{
    cover_words(net.variables(), net.words(), work, list)
}
