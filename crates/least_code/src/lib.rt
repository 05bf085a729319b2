// The search for the least code of an accepted drawing. Its functions ask of their callers what `requires` says; the entries
// of the public crates ask nothing.
#![tactic(auto)]

pub mod search; // search.rt: the least code, over all starts
mod busy; // busy.rt: the cable to begin with
mod best; // best.rt: the best code so far
