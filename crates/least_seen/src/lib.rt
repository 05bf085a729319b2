// What a branch that follows a code sees before the code's next record. Its functions ask of their callers what
// `requires` says; the entries of the public crates ask nothing.
#![tactic(auto)]

pub mod seen; // seen.rt: chords, edges and labels that come before a record
pub mod met; // met.rt: how a branch stands against the next row of a code
