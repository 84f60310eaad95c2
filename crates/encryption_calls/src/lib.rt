// The calls of keygen, encryption and encapsulation, without the C interface.
#![tactic(auto)]

pub mod encaps;
pub mod encrypt;
pub mod keygen;
