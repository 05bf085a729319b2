// Gathering: what goes on from the embeddings of a code in one drawing, as bits, a bit for each label. Its functions ask of their callers
// what `requires` says; the entries of the public crates ask nothing.
#![tactic(auto)]

pub mod rows; // rows.rt: the devices of a row as arrays
pub mod gather; // gather.rt: the bits that go on from a row, and from all rows of a part of the list
