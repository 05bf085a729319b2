// The tables of an accepted survey, filled once for a catalogue. Its functions ask of their callers what `requires` says; the
// entries of the public crates ask nothing.
#![tactic(auto)]

pub mod labels; // labels.rt: the tables of labels of a survey's drawings
pub mod bits; // bits.rt: the labels as bits, where they are few
