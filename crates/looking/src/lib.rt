// Looking for the next candidate of a code that is worth growing. Its functions ask of their callers what `requires` says; the
// entries of the public crates ask nothing.
#![tactic(auto)]

pub mod ahead; // ahead.rt: a code grown by the record at a place, and by the next candidate, unless it is certain not to be the least
