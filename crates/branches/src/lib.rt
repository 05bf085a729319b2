// Branches of a search for codes, as the search for the least code has them. Its functions ask of their callers what
// `requires` says; the entries of the public crates ask nothing.
#![tactic(auto)]

pub mod branch; // branch.rt: a branch of a search in lent arrays, and a number given in place and taken back
pub mod extension; // extension.rt: the least record that goes on from a branch
pub mod next; // next.rt: the next record of a code
pub mod ways; // ways.rt: the devices that a forward record can go to
