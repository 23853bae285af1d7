// Rows of conflict words, to be read: bit w of row u is set where the literals u and w conflict.
// The type keeps that the words hold them: whoever makes a value shows it once, and no method asks for it again.
ghost use Rattle.std.specs.Prelude.{◌≡◌, ℕ, ◌+◌, ◌-◌, ◌*◌, ◌<◌, ◌≤◌, false, length, MatchOption, slice_index};
ghost use Rattle.cover_theory.specs.Rows.{Fit, held};
ghost use Rattle.cover_theory.specs.Rule.{count as counted, shared, everyone, pairs_from};
ghost use Rattle.cover.specs.Reading.{Next};

use crate::mask::Mask;
use crate::words::{WORD_BITS, above, count_set, count_shared, first_set};

// The conflicts of `count` literals, in rows of `width` words.
#[derive(Clone, Copy)]
pub struct Rows<'a> {
    pub words: &'a [u64],
    pub width: usize,
    pub count: usize,
    pub ghost fit: { Fit count width words.now },
}

impl<'a> Rows<'a> {
    ghost use Rattle.cover_theory.specs.Rule.{those};
    ghost use Rattle.cover.specs.Views.{rel_of};
    ghost use Rattle.cover.specs.Unread.{conflicts_left};

    // The row of u.
    pub(crate) fn row(&self, u: usize) -> &'a [u64]
        requires { u < self.now.count }
        ensures length { length result.now ≡ self.now.width }
        ensures words { (k : ℕ) → k < self.now.width → slice_index result.now k ≡ slice_index self.now.words.now (u * self.now.width + k) }
    {
        &self.words[u * self.width..(u + 1) * self.width]
    }

    // The first literal from `from` on that conflicts with u, if one does.
    pub fn first_from(&self, u: usize, from: usize) -> Option<usize>
        ensures { MatchOption result ((j : ℕ) → from ≤ j → rel_of self.now u j ≡ false) (Next (rel_of self.now) u from) }
    {
        if u >= self.count {
            return None;
        }
        first_set(self.row(u), from)
    }

    // The literals after u that conflict with it, in order.
    pub fn after(&self, u: usize) -> Conflicts<'a>
        ensures { conflicts_left result ≡ those (rel_of self.now u) (self.now.count - (u + 1)) (u + 1) }
    {
        Conflicts {
            rows: *self,
            u,
            from: u,
        }
    }

    // How many literals conflict with u.
    pub(crate) fn degree(&self, u: usize) -> usize
        requires { u < self.now.count }
        ensures value { result ≡ counted (shared (rel_of self.now) (everyone self.now.count) u) self.now.count 0 }
        ensures bound { result ≤ 8192 }
    {
        count_set(self.row(u))
    }

    // How many of the mask conflict with u.
    pub(crate) fn common(&self, u: usize, mask: &Mask) -> usize
        requires { u < self.now.count }
        ensures value { result ≡ counted (shared (rel_of self.now) (held self.now.count mask.now.words) u) self.now.count 0 }
        ensures bound { result ≤ 8192 }
    {
        count_shared(self.row(u), &mask.words)
    }

    // How many literals after u conflict with it.
    pub(crate) fn count_after(&self, u: usize) -> usize
        requires { u < self.now.count }
        ensures value { result ≡ counted (rel_of self.now u) (self.now.count - (u + 1)) (u + 1) }
        ensures bound { result ≤ 8192 }
    {
        let row = self.row(u);
        let first = (u + 1) / WORD_BITS;
        if first >= row.len() {
            return 0;
        }
        let low = above(row[first], (u + 1) % WORD_BITS);
        low.count_ones() as usize + count_set(&row[first + 1..])
    }

    // How many conflicts there are, each once.
    // A `for`: tried as `map(..).sum()`, and that the sum fits, which the bound on each row gives, stayed open.
    pub(crate) fn conflicts(&self) -> usize
        ensures { result ≡ length (pairs_from self.now.count (rel_of self.now) self.now.count 0) }
    {
        let mut n = 0;
        for u in 0..self.count {
            n += self.count_after(u);
        }
        n
    }
}

// The literals that conflict with `u` from some literal on, in order.
#[derive(Drop)]
pub struct Conflicts<'a> {
    rows: Rows<'a>,
    u: usize,
    from: usize,
}

impl<'a> Iterator for Conflicts<'a> {
    ghost use Rattle.std.specs.Iterator.{YieldsFirst, item_count};
    ghost use Rattle.cover.specs.Unread.{conflicts_left};

    type Item = usize;

    ghost next_gives = { YieldsFirst conflicts_left };

    ghost remaining = { item_count conflicts_left };

    fn next(&mut self) -> Option<usize> {
        let w = self.rows.first_from(self.u, self.from)?;
        self.from = w + 1;
        Some(w)
    }
}
