// The search for the least map of an accepted pattern into an accepted drawing. Its functions ask of their callers what
// `requires` says; the entries of the public crates ask nothing.
#![tactic(auto)]

pub mod search; // search.rt: the search for the first map
