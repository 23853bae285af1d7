// The rows in which the conflicts of a network lie, or those that remain of them.
ghost use Rattle.std.specs.Prelude.{◌≡◌, ◌*◌, ◌≤◌};
ghost use Rattle.network_theory.specs.Layout.{row_words};
ghost use Rattle.network_theory.specs.Calls.{most_variables};
ghost use Rattle.cover_theory.specs.Rows.{Fit};

use cover::Rows;
use network::row_words;

// The rows of a network of `n` variables.
pub(crate) fn rows_of(n: usize, words: &[u64]) -> Rows<'_>
    requires { (Fit (2 * n) (row_words n) words.now) × (n ≤ most_variables) }
    ensures count { result.count ≡ 2 * n }
    ensures width { result.width ≡ row_words n }
    ensures words { result.words.now ≡ words.now }
{
    Rows {
        words,
        width: row_words(n),
        count: 2 * n,
    }
}
