// Answer numbers: the answer of a call as one number, for the C interface. Its functions ask of their callers what `requires` says; the
// entries of the public crates ask nothing.
#![tactic(auto)]

pub mod answers; // answers.rt: each kind of answer as its number
mod number; // number.rt: a count or a refusal as one number
