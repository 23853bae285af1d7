// The network of conflicts between literals. It is open while conflicts are added, then sealed, and lies in words
// that the caller lends. The contracts pin each call:
//   `answer`   what it answers, and when it declines
//   `network`  the whole network that it leaves: the number of variables and every word lent, needed or not
//   `lent`     that this network lies in the words lent, and in no others
//   `came`     by which calls, since the opening, a network came to be as it is
//   `exact`    the law: exactly the conflicts stand that those calls made accepted
#![tactic(auto)]

mod matrix;

ghost use Rattle.std.specs.Prelude.{◌≡◌, List, [], ◌∷◌, ◌++◌, is_ok, Decides};
ghost use Rattle.network_theory.specs.Layout.{words_needed, Conflict, beyond};
ghost use Rattle.network_theory.specs.Calls.{answered, misfit, opened, add_answer, after, run};
ghost use Rattle.network_theory.specs.Runs.{Undeclined, Exact, Grows, Came};
ghost use Rattle.network.specs.Views.{net_of};

use fault::{Fault, Layer, Refusal};
use logic::index_of;
use matrix::Matrix;
pub use matrix::row_words;
pub use network_theory::Call;

// A network has at most so many variables.
pub const MOST_VARIABLES: usize = 4096;

// Tells whether a network of `n` variables can lie in `words` words, and answers how many it needs.
pub fn fits(n: usize, words: usize) -> Result<usize, Fault>
    ensures { result ≡ answered (misfit n words) (words_needed n) }
{
    if !(1..=MOST_VARIABLES).contains(&n) {
        return Err(Fault::new(Layer::Network, Refusal::VariableCount));
    }
    let needed = matrix::words_needed(n);
    if words < needed {
        return Err(Fault::new(Layer::Network, Refusal::WordsShort));
    }
    Ok(needed)
}

// The words that 32 and 33 variables need: a row of 64 columns is one word, one of 66 is two.
pub fn edge_sizes() -> (usize, usize)
    ensures defined { result ≡ (words_needed 32, words_needed 33) }
    ensures numbers { result ≡ (64, 132) }
{
    (matrix::words_needed(32), matrix::words_needed(33))
}

// A network that takes conflicts. What is true of every network, its matrix keeps.
#[derive(Drop)]
pub struct Open<'a> {
    matrix: Matrix<'a>,
}

// A network that stays as it is. It keeps the words lent.
#[derive(Drop)]
pub struct Sealed<'a> {
    matrix: Matrix<'a>,
}

impl<'a> Open<'a> {
    // Opens a network of `n` variables in the words lent: clears those needed and leaves the rest.
    // With unfit numbers it has 0 variables, and no word is touched.
    pub fn open(n: usize, words: &'a mut [u64]) -> Open<'a>
        ensures network { net_of result.matrix ≡ opened n words.old }
        ensures lent { result.matrix.words.ghost_name ≡ words.entry.ghost_name }
        ensures came { Came (net_of result.matrix) [] }
    {
        Open {
            matrix: Matrix::empty(n, words),
        }
    }

    // Adds the conflict of two literals, and answers whether it is new. A declined add changes no word.
    pub fn add(&mut self, a: i32, b: i32) -> Result<bool, Fault>
        ensures answer { result ≡ add_answer (net_of self.old.matrix) a b }
        ensures network { net_of self.new.matrix ≡ after (net_of self.old.matrix) (Call.Add a b) }
        ensures lent { self.new.matrix.words.ghost_name ≡ self.old.matrix.words.ghost_name }
        ensures beyond { beyond (net_of self.new.matrix) ≡ beyond (net_of self.old.matrix) }
        ensures accepts { Decides (is_ok result) (Undeclined self.old.matrix.variables (Call.Add a b)) }
        ensures conflicts { Grows (net_of self.old.matrix) (Call.Add a b) (net_of self.new.matrix) }
        ensures came { (calls : List Call) → Came (net_of self.old.matrix) calls → Came (net_of self.new.matrix) (calls ++ Call.Add a b ∷ []) }
    {
        self.matrix.add(a, b)
    }

    // Makes a call that is given as a value, and lets its answer go.
    fn apply(&mut self, call: Call)
        ensures network { net_of self.new.matrix ≡ after (net_of self.old.matrix) call }
        ensures lent { self.new.matrix.words.ghost_name ≡ self.old.matrix.words.ghost_name }
    {
        match call {
            Call::Add(a, b) => {
                let _ = self.add(a, b);
            }
        }
    }

    // Ends the adding. Whatever calls this network came by, exactly the conflicts stand that they made accepted.
    pub fn seal(self) -> Sealed<'a>
        ensures network { net_of result.matrix ≡ net_of self.entry.matrix }
        ensures lent { result.matrix.words.ghost_name ≡ self.entry.matrix.words.ghost_name }
        ensures came { (calls : List Call) → Came (net_of self.entry.matrix) calls → Came (net_of result.matrix) calls }
        ensures exact { (calls : List Call) → Came (net_of self.entry.matrix) calls → Exact (net_of result.matrix) calls }
    {
        let Open { matrix } = self;
        Sealed { matrix }
    }
}

impl<'a> Sealed<'a> {
    // The number of variables.
    pub fn variables(&self) -> usize
        ensures { result ≡ (net_of self.now.matrix).variables }
    {
        self.matrix.variables
    }

    // The words lent, in which the conflicts lie.
    pub fn words(&self) -> &[u64]
        ensures { result.now ≡ (net_of self.now.matrix).words }
    {
        self.matrix.words
    }

    // Whether two numbers are literals in conflict.
    pub fn conflict(&self, a: i32, b: i32) -> bool
        ensures { Decides result (Conflict (net_of self.now.matrix) a b) }
    {
        let n = self.matrix.variables;
        match (index_of(n, a), index_of(n, b)) {
            (Some(u), Some(w)) => self.matrix.stands(u, w),
            _ => false,
        }
    }
}

// Opens a network of `n` variables, makes every call, each taken or declined, and seals it.
pub fn feed<'a>(n: usize, words: &'a mut [u64], calls: &[Call]) -> Sealed<'a>
    ensures network { net_of result.matrix ≡ run (opened n words.old) calls.now }
    ensures came { Came (net_of result.matrix) calls.now }
    ensures exact { Exact (net_of result.matrix) calls.now }
{
    let mut net = Open::open(n, words);
    for call in calls {
        net.apply(*call);
    }
    net.seal()
}
