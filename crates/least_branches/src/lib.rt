// Branches of a least test: they follow a code record by record. Its functions ask of their callers what `requires` says; the
// entries of the public crates ask nothing.
#![tactic(auto)]

pub mod better; // better.rt: the first record of a code before which a branch that follows it sees another
