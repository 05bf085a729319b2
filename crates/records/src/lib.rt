// Byte records: what a call refuses, and the drawing, survey, code and entry with their layouts and limits.
#![tactic(auto)]

pub mod refusal; // refusal.rt: why a call is turned back, by the paper's numbers, and with the drawing at fault
pub mod drawing; // drawing.rt: a drawing's counts and limits, and refusals 2 and 3
pub mod cable; // cable.rt: a drawing's cables
pub mod survey; // survey.rt: drawings one after another
pub mod code; // code.rt: a code under work
pub mod entry; // entry.rt: an entry of a catalogue
pub mod bytes; // bytes.rt: a byte that may be missing, bytes that are cleared
