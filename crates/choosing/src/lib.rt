// Choosing the candidates by which a code may grow. Its function asks of its callers what `requires` says; the entries of the public
// crates ask nothing.
#![tactic(auto)]

pub mod next; // next.rt: what extends a code counted, and the places with enough cranes chosen
