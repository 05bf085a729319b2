// Reading a survey from standard input, for the program `catalogue`. It asks nothing of its caller.
#![tactic(auto)]

pub mod input; // input.rt: reading a survey
