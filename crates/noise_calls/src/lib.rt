// The calls of the noise and of the coin choice, without the C interface.
#![tactic(auto)]

pub mod choose;
pub mod measure;
