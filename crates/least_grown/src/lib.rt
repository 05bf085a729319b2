// The least test of a code that has grown by a record. Its functions ask of their callers what `requires` says; the entries
// of the public crates ask nothing.
#![tactic(auto)]

pub mod clear; // clear.rt: codes that are least for a reason that their records alone tell
pub mod ties; // ties.rt: records of a code that could have gone elsewhere
pub mod grown; // grown.rt: whether a code that has grown is the least
