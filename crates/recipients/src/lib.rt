// The call of encryption to several recipients (02, No. 1), without the C interface.
#![tactic(auto)]

pub mod coins;
pub mod each;
