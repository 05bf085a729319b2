// The calls of `mining` and those of `reader`, for the program `vectors`. Its functions ask nothing of their callers.
#![tactic(auto)]

pub mod catalogue; // catalogue.rt: the calls that write a catalogue
pub mod check; // check.rt: the calls that check a list
pub mod fetch; // fetch.rt: the reader's calls, with their answers as text
