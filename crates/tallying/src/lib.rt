// Tallying: in which drawings each record goes on from a code, by walks over its numberings. Its function asks of its callers what
// `requires` says; the entries of the public crates ask nothing.
#![tactic(auto)]

pub mod count; // count.rt: the cells counted over all drawings
