// Marking: the records that go on from a numbering of a code, each at its place in a table. Its functions ask of their callers
// what `requires` says; the entries of the public crates ask nothing.
#![tactic(auto)]

pub mod cells; // cells.rt: the table of cells, one for each place, and the list of places seen
pub mod mark; // mark.rt: the places of the records that go on from a branch
