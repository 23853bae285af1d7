// What the code that writes a cover's formula keeps true: how it walks along the part list, and what it has put into a buffer so far.
// Only definitions and lemmas stand here; the `formula` crate computes.
#![tactic(auto)]

// The numbers that a call may give to auxiliaries: from `first` on, up to and without `end`.
#[derive(Clone, Copy)]
pub struct Numbers {
    pub first: u32,
    pub end: u32,
}
