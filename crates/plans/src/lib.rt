// Plans: what stays the same while the numberings of a code are walked or listed. Its functions ask of their callers what `requires`
// says; the entries of the public crates ask nothing.
#![tactic(auto)]

pub mod plan; // plan.rt: what stays the same during a walk, in one array
pub mod floors; // floors.rt: labels below which nothing has to be marked
