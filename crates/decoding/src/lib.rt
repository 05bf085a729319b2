// Decoding: the drawing that a code describes.
#![tactic(auto)]

pub mod decode; // decode.rt: the drawing that a code describes
