// A list of calls as it is read and their answers as they are printed, for the program `vectors`. Its functions ask nothing of
// their callers.
#![tactic(auto)]

pub mod call; // call.rt: the calls, by their numbers
pub mod bytes; // bytes.rt: bytes and numbers at a place
pub mod part; // part.rt: the parts of a list
pub mod answer; // answer.rt: what a call answered, as three numbers
pub mod print; // print.rt: an answer and bytes as text
