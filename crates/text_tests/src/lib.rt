// Texts and what comes of them, numbers and what is written of them.
#![tactic(auto)]

#[cfg(test)]
mod reading;
#[cfg(test)]
mod writing;
