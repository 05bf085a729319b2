// All codes of a drawing that go on from a branch. Its functions ask of their callers what `requires` says; the entries of the
// public crates ask nothing.
#![tactic(auto)]

pub mod below; // below.rt: the search below a branch, against the best code so far
