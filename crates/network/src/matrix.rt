// The conflict matrix in lent words, with what is true of every network's.
ghost use Rattle.std.specs.Prelude.{◌≡◌, ◌*◌, ◌/◌, ◌^◌, ◌<◌, ◌≤◌, length, bit_or};
ghost use Rattle.logic.specs.Literal.{index};
ghost use Rattle.network_theory.specs.declared.Call.TheVariants.{Add};
ghost use Rattle.network_theory.specs.Layout.{row_words, words_needed, bit, word_at, with_conflict, Mutual, Apart, Trimmed};
ghost use Rattle.network_theory.specs.Calls.{most_variables, answered, objection, opened};

use super::fits;
use fault::{Fault, Layer, Refusal};
use logic::index_of;

const WORD_BITS: usize = 64;

// The words of a row.
pub fn row_words(n: usize) -> usize
    ensures { result ≡ row_words n }
{
    // two literals a variable
    n.div_ceil(WORD_BITS / 2)
}

#[derive(Drop)]
pub struct Matrix<'a> {
    pub variables: usize,
    pub words: &'a mut [u64],
    ghost few: { variables ≤ most_variables },
    ghost room: { words_needed variables ≤ length words.now },
    ghost mutual: { Mutual (record { variables = variables; words = words.now }) },
    ghost apart: { Apart (record { variables = variables; words = words.now }) },
    ghost trimmed: { Trimmed (record { variables = variables; words = words.now }) },
}

// The words that `n` variables need.
pub(crate) fn words_needed(n: usize) -> usize
    requires { n ≤ most_variables }
    ensures { result ≡ words_needed n }
{
    2 * n * row_words(n)
}

// The word in which row `u` has its column `w`.
fn word_at(n: usize, u: usize, w: usize) -> usize
    requires few { n ≤ most_variables }
    requires u_index { u < 2 * n }
    requires w_index { w < 2 * n }
    ensures value { result ≡ word_at n u w }
    ensures needed { result < words_needed n }
{
    u * row_words(n) + w / WORD_BITS
}

// The indices of the two literals of a conflict, or why there is none.
fn indices(n: usize, a: i32, b: i32) -> Result<(usize, usize), Fault>
    ensures value { result ≡ answered (objection n (Add a b)) (index a, index b) }
{
    let (Some(u), Some(w)) = (index_of(n, a), index_of(n, b)) else {
        return Err(Fault::new(Layer::Network, Refusal::LiteralOutOfRange));
    };
    if u == w {
        return Err(Fault::new(Layer::Network, Refusal::RepeatedLiteral));
    }
    // the two literals of one variable
    if u / 2 == w / 2 {
        return Err(Fault::new(Layer::Network, Refusal::ComplementaryPair));
    }
    Ok((u, w))
}

// Clears the words that `n` variables need, and answers how many variables they then hold: none, if `n` does not fit.
fn clear(n: usize, words: &mut [u64]) -> usize
    ensures { record { variables = result; words = words.new } ≡ opened n words.old }
{
    match fits(n, words.len()) {
        Ok(needed) => {
            words[..needed].fill(0);
            n
        }
        Err(_) => 0,
    }
}

// Whether bit `k` of `x` is 1.
fn has_bit(x: u64, k: usize) -> bool
    requires { k < 64 }
    ensures { result ≡ bit x k }
{
    (x >> k) & 1 == 1
}

// `x` with bit `k` set.
fn with_bit(x: u64, k: usize) -> u64
    requires { k < 64 }
    ensures { result ≡ bit_or x (2 ^ k) }
{
    x | (1u64 << k)
}

// Puts the conflict of two indices in the words, both ways.
fn join(words: &mut [u64], n: usize, u: usize, w: usize)
    requires few { n ≤ most_variables }
    requires room { words_needed n ≤ length words.old }
    requires indices { (u < 2 * n) × (w < 2 * n) }
    ensures { words.new ≡ with_conflict n words.old u w }
{
    let there = word_at(n, u, w);
    words[there] = with_bit(words[there], w % WORD_BITS);
    let back = word_at(n, w, u);
    words[back] = with_bit(words[back], u % WORD_BITS);
}

impl<'a> Matrix<'a> {
    ghost use Rattle.std.specs.Prelude.{◌≡◌, ◌<◌, ◌*◌};
    ghost use Rattle.network_theory.specs.declared.Call.TheVariants.{Add};
    ghost use Rattle.network_theory.specs.Layout.{stands};
    ghost use Rattle.network_theory.specs.Calls.{opened, add_answer, after};
    ghost use Rattle.network.specs.Views.{net_of};

    // The matrix of no conflict for `n` variables, or for none if these do not fit the words.
    pub(crate) fn empty(n: usize, words: &'a mut [u64]) -> Matrix<'a>
        ensures network { net_of result ≡ opened n words.old }
        ensures lent { result.words.ghost_name ≡ words.entry.ghost_name }
    {
        let variables = clear(n, words);
        Matrix { variables, words }
    }

    // Whether the conflict of two indices stands.
    pub(crate) fn stands(&self, u: usize, w: usize) -> bool
        requires { (u < 2 * self.now.variables) × (w < 2 * self.now.variables) }
        ensures { result ≡ stands self.now.variables self.now.words.now u w }
    {
        has_bit(self.words[word_at(self.variables, u, w)], w % WORD_BITS)
    }

    // Adds the conflict of two literals, and answers whether it is new.
    pub(crate) fn add(&mut self, a: i32, b: i32) -> Result<bool, Fault>
        ensures answer { result ≡ add_answer (net_of self.old) a b }
        ensures network { net_of self.new ≡ after (net_of self.old) (Add a b) }
        ensures lent { self.new.words.ghost_name ≡ self.old.words.ghost_name }
    {
        let (u, w) = indices(self.variables, a, b)?;
        let stood = self.stands(u, w);
        join(self.words, self.variables, u, w);
        Ok(!stood)
    }
}
