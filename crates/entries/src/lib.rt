// Entries: what a list of patterns is written as. Its functions ask of their callers what `requires` says; the entries of the public
// crates ask nothing.
#![tactic(auto)]

pub mod entry; // entry.rt: one entry of a list written into its own bytes
pub mod next; // next.rt: the next entry of a list written, or held against a list that is given
