// Coding: what gives a drawing its identity: its least code, and whether a code is the least.
#![tactic(auto)]

pub mod least; // least.rt: whether a code is the least of what it describes, and how far it agrees with that
pub mod code; // code.rt: the least code of a drawing
