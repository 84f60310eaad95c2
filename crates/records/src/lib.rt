// Records (01, "Records on standard input").
#![tactic(auto)]

pub mod header;
pub mod step;
pub mod window;
