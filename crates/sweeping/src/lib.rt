// Sweeping: the places of what goes on from all embeddings of a code in one drawing, gathered as bits before any cell is looked at. Its
// functions ask of their callers what `requires` says; the entries of the public crates ask nothing.
#![tactic(auto)]

pub mod drawing; // drawing.rt: the rows of a drawing swept, and the places put
mod put; // put.rt: the places of bits
