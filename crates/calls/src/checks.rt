// The checks of the calls (01, "When a call is turned down"): the first one that fails decides.
ghost use Rattle.std.specs.Prelude.{◌≡◌, true, false, OnOk, IfErr};
ghost use Rattle.kindi.specs.Params.{is_set};

use crate::refusal::Refusal;

// Whether there is a set of this number.
pub fn is_set(set: u32) -> bool
    ensures { result ≡ is_set set }
{
    matches!(set, 1..=4)
}

// Goes on where a check holds, and refuses where it does not.
pub fn require(holds: bool, refusal: Refusal) -> Result<(), Refusal>
    ensures ok { OnOk result (holds ≡ true) }
    ensures refused { IfErr result (λ e. (holds ≡ false) × (e ≡ refusal)) }
{
    if holds { Ok(()) } else { Err(refusal) }
}
