// The survey reader: a survey is opened once, and then its drawings are fetched by number.
#![tactic(auto)]

pub mod part; // part.rt: the parts of a survey that opening and fetching give, over plain slices
pub mod reader; // reader.rt: a survey that was opened
