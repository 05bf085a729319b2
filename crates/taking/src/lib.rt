// Taking a candidate of a catalogue up. Its functions ask of their callers what `requires` says; the entries of the public crates ask
// nothing.
#![tactic(auto)]

pub mod take; // take.rt: a candidate tested, its entry written or held against a list, and whether it goes on
