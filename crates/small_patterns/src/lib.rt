// Small patterns: all patterns with few cables and few kinds, in the order of their codes. Its functions ask of their callers what
// `requires` says; the entries of the public crates ask nothing.
#![tactic(auto)]

pub mod next; // next.rt: the records that may come next, by number
pub mod grow; // grow.rt: growing a code by each of them, and the entry of one that is the least
