// Growing: a pattern and all that goes on from it, listed as it is found. Its functions ask of their callers what
// `requires` says; the entries of the public crates ask nothing.
#![tactic(auto)]

pub mod grow; // grow.rt: growing a pattern and walking its next cables
