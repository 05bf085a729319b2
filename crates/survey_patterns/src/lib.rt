// Survey patterns: all patterns of a survey that drawings of enough cranes contain, kind by kind of device 0. Its functions ask of their
// callers what `requires` says; the entries of the public crates ask nothing.
#![tactic(auto)]

pub mod mine; // mine.rt: the patterns of one kind of device 0, and of all
pub mod survey; // survey.rt: an accepted survey's tables and the search's arrays
