// Checks: whether a drawing or a survey is accepted, or the first reason to refuse it.
#![tactic(auto)]

pub mod drawing; // drawing.rt: refusals 1 to 8
pub mod survey; // survey.rt: refusals 1, 14 and 2 to 8 with the drawing
