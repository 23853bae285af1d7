// Worked examples of the rules, computed from the definitions that the contracts cite.
#![tactic(auto)]

ghost use Rattle.examples.specs.Examples.{Examples};

// Does nothing: its contract is that every example holds.
pub fn examples_hold()
    ensures { Examples }
{}
