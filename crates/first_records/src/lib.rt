// First records: in how many drawings, and in which, each record stands that a code can begin with. Its functions ask of their
// callers what `requires` says; the entries of the public crates ask nothing.
#![tactic(auto)]

pub mod firsts; // firsts.rt: the cells counted, kind by kind of device 0
