// Tests of measure, write and complete: every encoder on one network, each refusal at its edge, and what every buffer then holds.
#![tactic(auto)]

#[cfg(test)]
mod tests;
