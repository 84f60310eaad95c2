// The SHAKE calls, and what the other calls share: refusals, the checks of lengths, the sizes of keys and work areas, the hashes of shared
// keys, and the work area at exit.
#![tactic(auto)]

pub mod checks;
pub mod kem;
pub mod refusal;
pub mod shake;
pub mod sizes;
pub mod work;
