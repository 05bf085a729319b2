// One record of a code, and the order of two. Its functions ask of their callers what `requires` says; the entries of the public
// crates ask nothing.
#![tactic(auto)]

pub mod record; // record.rt: a record of a code, and the order of two records
