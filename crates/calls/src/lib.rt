// Calls of the library, made and printed, for the program `vectors`. Its functions ask nothing of their callers.
#![tactic(auto)]

pub mod book; // book.rt: the call that writes a book
pub mod request; // request.rt: a call as a list has it
pub mod run; // run.rt: a call by its settings
