// Layers of encoders: the rule that forms groups, the commander over any two encoders, the tower over itself.
// Definitions and their proofs; crate `layers` has the calls.
// A function here does nothing: its contract is a theorem of the definitions.
#![tactic(auto)]

ghost use Rattle.encoder_theory.specs.Laws.{Lawful};
ghost use Rattle.layer_theory.specs.Tower.{tower};
ghost use Rattle.layer_theory.specs.Theorems.{RuleForms, PlacesLie, CommanderLawful, TowerBuilt, Sizes};

// Groups are consecutive, cover all places, none is empty and none above k; a place lies in one group.
pub fn rule_forms_groups()
    ensures rule { RuleForms }
    ensures places { PlacesLie }
{}

// A commander of 2 or more keeps the laws over any group and top encoder that do.
pub fn commander_is_lawful()
    ensures { CommanderLawful }
{}

// The tower keeps the laws.
pub fn tower_is_lawful()
    ensures { Lawful tower }
{}

// The tower is pairwise up to five members, and above the commander of three over pairwise groups and itself.
pub fn tower_stands_on_itself()
    ensures { TowerBuilt }
{}

// The definitions, computed.
pub fn examples()
    ensures { Sizes }
{}
