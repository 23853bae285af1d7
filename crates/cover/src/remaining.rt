// The conflicts that remain while parts are taken out of them.
ghost use Rattle.std.specs.Prelude.{◌≡◌, ℕ, ◌*◌, ◌<◌, ◌≤◌, not, ◌&&◌, length, slice_index, ◌==◌};
ghost use Rattle.network_theory.specs.Layout.{bit};
ghost use Rattle.cover_theory.specs.Rows.{Fit, marked, held};
ghost use Rattle.cover_theory.specs.Rule.{without, without_sides};

use crate::mask::{Mask, Sides};
use crate::rows::Rows;

// Rows of conflict words that can be changed; there are no other words.
#[derive(Drop)]
pub(crate) struct Remaining<'a> {
    pub(crate) words: &'a mut [u64],
    pub(crate) width: usize,
    pub(crate) count: usize,
    ghost fit: { Fit count width words.now },
    ghost whole: { length words.now ≡ count * width },
}

// Takes the bits of a mask out of a row.
fn clear_bits(row: &mut [u64], mask: &Mask)
    requires { length row.old ≤ 128 }
    ensures { (k j : ℕ) → k < length row.old → bit (slice_index row.new k) j ≡ (bit (slice_index row.old k) j && not (bit (slice_index mask.now.words k) j)) }
{
    for (i, word) in row.iter_mut().enumerate() {
        *word ^= *word & mask.words[i];
    }
}

impl<'a> Remaining<'a> {
    ghost use Rattle.cover.specs.Views.{rel_of, rel_in, shape_of};

    // To be read.
    pub(crate) fn rows(&self) -> Rows<'_>
        ensures words { result.words.now ≡ self.now.words.now }
        ensures width { result.width ≡ self.now.width }
        ensures count { result.count ≡ self.now.count }
        ensures conflicts { rel_of result ≡ rel_in self.now }
    {
        Rows {
            words: self.words,
            width: self.width,
            count: self.count,
        }
    }

    // Takes the conflicts of u with those in the mask out of its row.
    fn erase(&mut self, u: usize, mask: &Mask)
        requires { u < self.old.count }
        ensures shape { shape_of self.new ≡ shape_of self.old }
        ensures gone { (a b : ℕ) → rel_in self.new a b ≡ (rel_in self.old a b && not (u == a && marked mask.now.words b)) }
    {
        let start = u * self.width;
        clear_bits(&mut self.words[start..start + self.width], mask);
    }

    // Takes the conflicts within a clique away.
    pub(crate) fn remove(&mut self, clique: &[usize], mask: &mut Mask)
        requires { (i : ℕ) → i < length clique.now → slice_index clique.now i < self.old.count }
        ensures shape { shape_of self.new ≡ shape_of self.old }
        ensures left { rel_in self.new ≡ without (rel_in self.old) clique.now }
    {
        mask.paint(clique, self.width);
        for &u in clique {
            self.erase(u, mask);
        }
    }

    // Takes the conflicts of u with those in `off` out of its row, if u is in `on`.
    fn erase_if(&mut self, u: usize, on: &Mask, off: &Mask)
        requires { u < self.old.count }
        ensures shape { shape_of self.new ≡ shape_of self.old }
        ensures gone { (a b : ℕ) → rel_in self.new a b ≡ (rel_in self.old a b && not (u == a && (marked on.now.words a && marked off.now.words b))) }
    {
        if on.contains(u) {
            self.erase(u, off);
        }
    }

    // Takes the conflicts between two sides away.
    pub(crate) fn sever(&mut self, sides: &Sides)
        ensures shape { shape_of self.new ≡ shape_of self.old }
        ensures left { rel_in self.new ≡ without_sides (rel_in self.old) (held self.old.count sides.now.left.words, held self.old.count sides.now.right.words) }
    {
        for u in 0..self.count {
            self.erase_if(u, &sides.left, &sides.right);
            self.erase_if(u, &sides.right, &sides.left);
        }
    }
}
