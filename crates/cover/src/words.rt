// Words and the bits in them. A list of words has a bit for each literal, by index.
ghost use Rattle.std.specs.Prelude.{◌≡◌, ℕ, ◌+◌, ◌*◌, ◌<◌, ◌≤◌, true, false, ◌&&◌, ◌^◌, length, MatchOption, nat_le, sum_by, bit_and, count_ones, slice_index};
ghost use Rattle.network_theory.specs.Layout.{bit};
ghost use Rattle.cover_theory.specs.Rows.{marked};
ghost use Rattle.cover_theory.specs.Rule.{count as counted};
ghost use Rattle.std.specs.List.{zip};
ghost use Rattle.cover.specs.Bits.{FirstMarked};

// The bits of a word.
pub(crate) const WORD_BITS: usize = 64;

// A network has at most so many literals.
pub(crate) const MOST_LITERALS: usize = 8192;

// A row has at most so many words.
pub(crate) const MOST_ROW_WORDS: usize = 128;

// The lowest set bit of a word that is not 0.
fn lowest(x: u64) -> usize
    requires { 0 < x }
    ensures within { result < 64 }
    ensures here { bit x result ≡ true }
    ensures before { (j : ℕ) → j < result → bit x j ≡ false }
{
    x.trailing_zeros() as usize
}

// The word without its k lowest bits.
pub(crate) fn above(x: u64, k: usize) -> u64
    requires { k < 64 }
    ensures { (j : ℕ) → bit result j ≡ (nat_le k j && bit x j) }
{
    x >> k << k
}

// The lowest bit from `from` on that is set. The loop goes by index: with `position` the proof did not close.
pub(crate) fn first_set(words: &[u64], from: usize) -> Option<usize>
    requires { length words.now ≤ 128 }
    ensures { MatchOption result ((j : ℕ) → from ≤ j → j < 64 * length words.now → marked words.now j ≡ false) (FirstMarked words.now (64 * length words.now) from) }
{
    let first = from / WORD_BITS;
    if first >= words.len() {
        return None;
    }
    let x = above(words[first], from % WORD_BITS);
    if x != 0 {
        return Some(WORD_BITS * first + lowest(x));
    }
    for i in first + 1..words.len() {
        if words[i] != 0 {
            return Some(WORD_BITS * i + lowest(words[i]));
        }
    }
    None
}

// How many bits are set.
pub(crate) fn count_set(words: &[u64]) -> usize
    requires { length words.now ≤ 128 }
    ensures value { result ≡ counted (marked words.now) (64 * length words.now) 0 }
    ensures bound { result ≤ 8192 }
{
    words.iter().map(|x| x.count_ones() as usize).sum()
}

// How many bits are set in both.
pub(crate) fn count_shared(words: &[u64], others: &[u64]) -> usize
    requires { length words.now ≤ 128 }
    ensures sum { result ≡ sum_by (λ p. count_ones (bit_and p.0 p.1)) (zip words.now others.now) }
    ensures words { (k : ℕ) → slice_index words.now k < 2 ^ 64 }
{
    words
        .iter()
        .zip(others.iter())
        .map(|(x, y)| (x & y).count_ones() as usize)
        .sum()
}
