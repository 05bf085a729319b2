// Matching: the least map of a pattern into a drawing, and whether two drawings are the same.
#![tactic(auto)]

pub mod map; // map.rt: the least map of a pattern into a drawing
pub mod same; // same.rt: whether two drawings are the same
mod pair; // pair.rt: two drawings, the first checked fully before the second
