// Tables of labels: the cables of a drawing or a code as numbers. Its functions ask of their callers what `requires` says; the
// entries of the public crates ask nothing.
#![tactic(auto)]

pub mod table; // table.rt: the labels of a drawing's cables, seen from each end
pub mod twins; // twins.rt: the exchangeable devices of a drawing
