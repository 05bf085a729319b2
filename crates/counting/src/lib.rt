// Counting: in how many drawings, and in which, each record goes on from a code, from lists of its embeddings or by walks. Its
// functions ask of their callers what `requires` says; the entries of the public crates ask nothing.
#![tactic(auto)]

pub mod listed; // listed.rt: the cells counted from lists of embeddings
pub mod next; // next.rt: the cells counted in either way, and the lists handed on
