// The theory of the network of conflicts: how conflicts lie in words, what each call answers and leaves,
// which conflicts a list of calls makes accepted, and the proofs that these agree.
#![tactic(auto)]

// A call on an open network.
#[derive(Clone, Copy)]
pub enum Call {
    // Adds the conflict of two literals.
    Add(i32, i32),
}
