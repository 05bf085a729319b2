// Sheets of one crane: which drawings of a survey are, noted once, and how many cranes a set of drawings has. Its functions ask of
// their callers what `requires` says; the entries of the public crates ask nothing.
#![tactic(auto)]

pub mod note; // note.rt: for each drawing the later sheets of its crane, as bits
pub mod count; // count.rt: a cell counted by cranes
