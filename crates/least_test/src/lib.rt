// The least test of a code that is known to be accepted. Its functions ask of their callers what `requires` says; the entries
// of the public crates ask nothing.
#![tactic(auto)]

pub mod starts; // starts.rt: the first record of a code before which some start of what it describes has another
