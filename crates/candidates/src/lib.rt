// Candidates: the records by which a pattern may grow, chosen. Its functions ask of their callers what `requires` says; the entries
// of the public crates ask nothing.
#![tactic(auto)]

pub mod choose; // choose.rt: the candidates taken out of the cells, rising
