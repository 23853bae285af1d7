// What is written for a cover of conflicts, and that it says just what the conflicts say: definitions and their proofs.
// A function here does nothing: its contract is a theorem of the definitions.
#![tactic(auto)]

ghost use Rattle.formula_theory.specs.Faithful.{WritingIsFaithful, LeadsByClauses, EqualsWriteAlike, AccountBalances};
ghost use Rattle.formula_theory.specs.Outcome.{MeasureForetells};
ghost use Rattle.formula_theory.specs.Promise.{CoverPartitions, Faithfulness, Completion};
ghost use Rattle.formula_theory.specs.Counting.{ConflictsCounted, NoMoreThanCalls, FewAuxiliaries};
ghost use Rattle.formula_theory.specs.Examples.{SmallCovers, ChosenAtTheEdge};

// What a writing takes: its numbers of clauses and of auxiliaries.
#[derive(Clone, Copy, PartialEq, Eq, Debug)]
pub struct Size {
    pub clauses: usize,
    pub auxiliaries: usize,
}

// The clauses written for a cover have the models and the chains of its conflicts, with the number of clauses
// and the auxiliary values that are told.
pub fn writing_is_faithful()
    ensures { WritingIsFaithful }
{}

// A chain told from conflicts is a chain in their clauses.
pub fn leads_by_clauses()
    ensures { LeadsByClauses }
{}

// Equal encoders write the same clauses.
pub fn equals_write_alike()
    ensures { EqualsWriteAlike }
{}

// What is written and what is saved are the conflicts.
pub fn account_balances()
    ensures { AccountBalances }
{}

// The rule that networks are covered by partitions their conflicts.
pub fn cover_partitions()
    ensures { CoverPartitions }
{}

// The promise of faithfulness, over all lists of calls and over any two writings, follows from what one writing answers and leaves.
pub fn faithfulness_follows()
    ensures { Faithfulness }
{}

// What complete promises follows from what it answers and leaves.
pub fn completion_follows()
    ensures { Completion }
{}

// A cover has each conflict once, and its parts and what remains count them.
pub fn conflicts_counted()
    ensures { ConflictsCounted }
{}

// No writing takes more clauses than calls were made on its network.
pub fn no_more_than_calls()
    ensures { NoMoreThanCalls }
{}

// A lawful encoder takes at most four auxiliaries for a conflict.
pub fn few_auxiliaries()
    ensures { FewAuxiliaries }
{}

// A writing is refused as measure is, or for want of room, and else answers what measure answers.
pub fn measure_foretells()
    ensures { MeasureForetells }
{}

// The definitions, computed at small covers and at the edge between binary and pairwise.
pub fn examples()
    ensures covers { SmallCovers }
    ensures chosen { ChosenAtTheEdge }
{}
