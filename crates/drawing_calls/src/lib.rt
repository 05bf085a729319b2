// The calls over drawings and codes (`checks`, `code_checks`, `decoding`, `comparing`, `coding`, `matching`), for the program `vectors`.
// Its functions ask nothing of their callers.
#![tactic(auto)]

pub mod ask; // ask.rt: the calls that are lent no output
pub mod write; // write.rt: the calls that are
