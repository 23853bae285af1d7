// What an encoder of "at most one of the members is true" means, the laws that each keeps, and what its calls answer:
// definitions and their proofs. Crate `encoder` has the calls.
// A function here does nothing: its contract is a theorem of the definitions.
#![tactic(auto)]

ghost use Rattle.encoder_theory.specs.Theorems.{ExactAdmission, EqualsAlike, LeastBits, Sizes, Lists};

// A call admits members, first number and place exactly where the laws speak of them.
#[tactic(auto, using(crate::proofs::Decided::admitted_decides, crate::proofs::Decided::placed_decides))]
pub fn admission_is_exact()
    ensures { ExactAdmission }
{}

// Equal encoders tell, answer and write the same.
#[tactic(auto, using(crate::proofs::Equals::equals_alike))]
pub fn equals_are_alike()
    ensures { EqualsAlike }
{}

// Binary takes as few auxiliaries as can tell the members apart.
pub fn bits_are_least()
    ensures { LeastBits }
{}

// The definitions, computed: sizes at the edges, and whole lists over three members.
pub fn examples()
    ensures sizes { Sizes }
    ensures lists { Lists }
{}
