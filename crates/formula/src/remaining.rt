// Writes the clauses of the conflicts that remain.
ghost use Rattle.std.specs.Prelude.{◌≡◌, ◌+◌, ◌-◌, ◌*◌, ◌<◌, ◌≤◌, length};
ghost use Rattle.logic.specs.Literal.{literal, variable};
ghost use Rattle.logic.specs.Clause.{flat};
ghost use Rattle.network_theory.specs.Calls.{most_variables};
ghost use Rattle.filling.specs.Filled.{after};
ghost use Rattle.filling.specs.Views.{filled};
ghost use Rattle.cover_theory.specs.Rule.{those};
ghost use Rattle.formula_theory.specs.Writing.{conflict_clauses};
ghost use Rattle.writing_theory.specs.Remaining.{row_clauses};
ghost use Rattle.formula.specs.Rows.{remaining_in};
ghost use Rattle.cover.specs.Views.{rel_of};

use cover::Rows;
use encoder::push_clause;
use filling::Filling;
use logic::literal_at;

// The literal of an index of a network. Cover has the same line: a public one would ask something of its callers.
pub(crate) fn literal_of(u: usize) -> i32
    requires { u < 2 * most_variables }
    ensures literal { result ≡ literal u }
    ensures small { variable result ≤ most_variables }
{
    literal_at(u).unwrap()
}

// Puts the clauses of the conflicts of u with the literals after it next.
fn put_row(rows: &Rows, u: usize, out: &mut Filling<i32>)
    requires within { u < rows.now.count }
    requires room { 2 * length (those (rel_of rows.now u) (rows.now.count - (u + 1)) (u + 1)) ≤ length (filled out.old).rest }
    ensures { filled out.new ≡ after (filled out.old) (flat (row_clauses u (those (rel_of rows.now u) (rows.now.count - (u + 1)) (u + 1)))) }
{
    for w in rows.after(u) {
        push_clause(out, (-literal_of(u), -literal_of(w)));
    }
}

// Puts the clauses of all conflicts in the rows next, by the one literal and then by the other.
pub(crate) fn put_remaining(rows: &Rows, out: &mut Filling<i32>)
    requires { 2 * length (remaining_in rows.now) ≤ length (filled out.old).rest }
    ensures { filled out.new ≡ after (filled out.old) (flat (conflict_clauses (remaining_in rows.now))) }
{
    for u in 0..rows.count {
        put_row(rows, u, out);
    }
}
