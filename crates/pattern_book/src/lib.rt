// The book of all small patterns.
#![tactic(auto)]

pub mod book; // book.rt: the book written as entries
