// Readings: a code under work, read or made record by record. Its functions ask of their callers what `requires` says; the
// entries of the public crates ask nothing.
#![tactic(auto)]

pub mod reading; // reading.rt: whether a record is a permitted step, and what is known after it
