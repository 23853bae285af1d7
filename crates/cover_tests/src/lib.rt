// Tests of the cover at its edges.
#![tactic(auto)]

#[cfg(test)]
mod tests;
