// The parts of a drawing's check: its cables, its unused bytes, whether it is connected. Its functions ask of their callers what
// `requires` says; the entries of the public crates ask nothing.
#![tactic(auto)]

pub mod cables; // cables.rt: refusals 4 to 6
pub mod reached; // reached.rt: the devices that cables lead to, refusal 8
pub mod zeros; // zeros.rt: bytes that are all zero, refusal 7
