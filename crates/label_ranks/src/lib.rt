// The labels of an accepted survey numbered in rising order, and the kinds that occur in it. Its functions ask of their callers
// what `requires` says; the entries of the public crates ask nothing.
#![tactic(auto)]

pub mod ranks; // ranks.rt: the labels of a survey numbered in rising order
pub mod kinds; // kinds.rt: the kinds that occur in a survey
