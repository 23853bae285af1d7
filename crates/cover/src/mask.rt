// A mask: a set of literals, by index.
ghost use Rattle.std.specs.Prelude.{◌≡◌, ℕ, ◌*◌, ◌/◌, ◌<◌, ◌≤◌, ◌||◌, length, ◌==◌, false, MatchOption, bit_and, slice_index};
ghost use Rattle.cover_theory.specs.Rows.{marked, Neat, held};
ghost use Rattle.cover_theory.specs.Rule.{among, count as counted};
ghost use Rattle.cover.specs.Bits.{FirstMarked};

use crate::words::{MOST_ROW_WORDS, WORD_BITS, count_set, first_set};

#[derive(Clone, Copy)]
pub(crate) struct Mask {
    pub(crate) words: [u64; MOST_ROW_WORDS],
}

impl Mask {
    // The empty mask.
    pub(crate) const fn new() -> Mask {
        Mask {
            words: [0; MOST_ROW_WORDS],
        }
    }

    // Whether c is in the mask.
    pub(crate) fn contains(&self, c: usize) -> bool
        requires { c < 8192 }
        ensures { result ≡ marked self.now.words c }
    {
        (self.words[c / WORD_BITS] >> (c % WORD_BITS)) & 1 == 1
    }

    // c joins the mask.
    pub(crate) fn insert(&mut self, c: usize)
        requires { c < 8192 }
        ensures { (j : ℕ) → marked self.new.words j ≡ (marked self.old.words j || c == j) }
    {
        self.words[c / WORD_BITS] |= 1u64 << (c % WORD_BITS);
    }

    // Clears the first `width` words.
    pub(crate) fn clear(&mut self, width: usize)
        requires { width ≤ 128 }
        ensures { (k : ℕ) → k < width → slice_index self.new.words k ≡ 0 }
    {
        self.words[..width].fill(0);
    }

    // The first words become a row.
    pub(crate) fn copy_row(&mut self, row: &[u64])
        requires { length row.now ≤ 128 }
        ensures { (k : ℕ) → k < length row.now → slice_index self.new.words k ≡ slice_index row.now k }
    {
        self.words[..row.len()].copy_from_slice(row);
    }

    // Keeps of the words from the given one on what a row has too.
    // By index, here and in `share`: of what `iter_mut().zip(..)` wrote, a proof knows the length alone.
    pub(crate) fn meet(&mut self, row: &[u64], from: usize)
        requires { length row.now ≤ 128 }
        ensures { (k : ℕ) → from ≤ k → k < length row.now → slice_index self.new.words k ≡ bit_and (slice_index self.old.words k) (slice_index row.now k) }
    {
        for i in from..row.len() {
            self.words[i] &= row[i];
        }
    }

    // The words from the given one on become what two rows share.
    pub(crate) fn share(&mut self, row: &[u64], other: &[u64], from: usize)
        requires { (length row.now ≤ 128) × (length other.now ≡ length row.now) }
        ensures { (k : ℕ) → from ≤ k → k < length row.now → slice_index self.new.words k ≡ bit_and (slice_index row.now k) (slice_index other.now k) }
    {
        for i in from..row.len() {
            self.words[i] = row[i] & other[i];
        }
    }

    // The lowest of the mask from `from` on, in the first `width` words.
    pub(crate) fn first_from(&self, from: usize, width: usize) -> Option<usize>
        requires { width ≤ 128 }
        ensures { MatchOption result ((j : ℕ) → from ≤ j → j < 64 * width → marked self.now.words j ≡ false) (FirstMarked self.now.words (64 * width) from) }
    {
        first_set(&self.words[..width], from)
    }

    // Becomes the set of these literals, in the first `width` words.
    pub(crate) fn paint(&mut self, literals: &[usize], width: usize)
        requires { (width ≤ 128) × ((i : ℕ) → i < length literals.now → slice_index literals.now i < 64 * width) }
        ensures { (j : ℕ) → j < 64 * width → marked self.new.words j ≡ among literals.now j }
    {
        self.clear(width);
        for &c in literals {
            self.insert(c);
        }
    }

    // How many of `count` literals are in the mask.
    pub(crate) fn len(&self, width: usize) -> usize
        requires { width ≤ 128 }
        ensures value { (count : ℕ) → count ≤ 64 * width → Neat count width self.now.words → result ≡ counted (held count self.now.words) count 0 }
        ensures bound { result ≤ 8192 }
    {
        count_set(&self.words[..width])
    }
}

// Two sides.
#[derive(Clone, Copy)]
pub(crate) struct Sides {
    pub(crate) left: Mask,
    pub(crate) right: Mask,
}

impl Sides {
    // Whether u is on a side.
    pub(crate) fn contains(&self, u: usize) -> bool
        requires { u < 8192 }
        ensures { result ≡ (marked self.now.left.words u || marked self.now.right.words u) }
    {
        self.left.contains(u) || self.right.contains(u)
    }
}
