// Listing: the embeddings of a code in all drawings of a survey, a level for each number of cables. Its functions ask of their
// callers what `requires` says; the entries of the public crates ask nothing.
#![tactic(auto)]

pub mod level; // level.rt: the lists of all drawings, level by level
