// Reads and writes clauses as DIMACS CNF text, over slices that the caller lends.
//
// `read::read` lists the numbers of a text and answers what it found; it accepts exactly the well-formed files.
// `write::write` writes such a list as text, which reads back as the same numbers.
#![tactic(auto)]

pub mod class;
pub mod read;
pub mod write;
