// Encoders over other encoders: the commander over any two, and the tower over itself.
// An encoder inside is used through the trait alone, so piles of any depth keep the laws.
#![tactic(auto)]

mod commander;
mod group;
mod tower;

pub use commander::Commander;
pub use tower::Tower;
