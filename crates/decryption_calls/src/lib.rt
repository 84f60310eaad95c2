// The calls of decryption and decapsulation, without the C interface.
#![tactic(auto)]

pub mod decaps;
pub mod decrypt;
mod padding;
