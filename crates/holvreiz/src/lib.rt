// Holvreiz: the C interface. Each call returns one number, (drawing * 256 + refusal) * 2^32 + count, and asks nothing of the
// bytes that it is given. bindings/ has the header for C and the wrapper for Rust.
#![tactic(auto)]

pub mod code; // code.rt: coding, decoding, the least test, comparing
pub mod map; // map.rt: matching and sameness
pub mod catalogue; // catalogue.rt: the catalogue and the book
