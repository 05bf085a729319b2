// The line of an entry, made in lent bytes. Its functions ask of their callers what `requires` says; the entries of the public
// crates ask nothing.
#![tactic(auto)]

pub mod line; // line.rt: the line of an entry
pub mod place; // place.rt: bytes, words and numbers put behind each other
