// Checks of codes: whether a code is accepted, or the first reason to refuse it; what the calls over codes answer.
#![tactic(auto)]

pub mod answer; // answer.rt: what each call answers
pub mod check; // check.rt: whether a code is accepted, and refusals 9 to 11
