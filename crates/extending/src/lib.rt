// A code that grows: the record at a place, the code with it, and whether that is certain not to be the least. Its functions ask
// of their callers what `requires` says; the entries of the public crates ask nothing.
#![tactic(auto)]

pub mod hopeful; // hopeful.rt: codes that cannot be least, told by their last record
pub mod extension; // extension.rt: a code that grows, and the record at a place
