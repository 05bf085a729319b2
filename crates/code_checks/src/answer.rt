// What each call answers where it refuses nothing. The paper's numbers of each answer are in specs/Answers.antt.
use std::cmp::Ordering;

// Comparing two codes: where the first one comes, and their agreement, the number of whole records before the first on which they part.
#[derive(Clone, Copy, Debug, PartialEq, Eq)]
pub struct Comparison {
    pub order: Ordering,
    pub agreement: usize,
}

// Whether a code is the least of what it describes, and its agreement with the least one.
#[derive(Clone, Copy, Debug, PartialEq, Eq)]
pub struct Verdict {
    pub least: bool,
    pub agreement: usize,
}
