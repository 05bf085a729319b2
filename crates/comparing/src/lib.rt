// Comparing: which of two codes comes before the other, and how far they agree.
#![tactic(auto)]

pub mod compare; // compare.rt: which of two codes comes before the other, and how far they agree
