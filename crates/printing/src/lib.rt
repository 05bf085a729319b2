// Printing: the text of a catalogue, or of the refusal of one, made in lent bytes.
#![tactic(auto)]

pub mod text; // text.rt: the text of what a catalogue call answers
