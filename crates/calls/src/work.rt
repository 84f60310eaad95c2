// The work area at a call's exit. Each call has its checks, a function that leaves the work area as its work does, and one that wipes
// it then. One function for all that takes the work as a closure is no shorter at the calls, and there the check does not find by
// itself what the closure wrote into the call's buffers.
ghost use Rattle.std.specs.Prelude.{◌≡◌, length, replicate};
ghost use Rattle.kindi.specs.Calls.{work_after};

use crate::checks;

pub fn wipe(work: &mut [u8])
    ensures { work.new ≡ replicate (length work.old) 0 }
{
    work.fill(0);
}

// Wipes a work area that is long enough, where there is such a set; both exits of a call end with it.
pub fn finish(set: u32, need: usize, work: &mut [u8])
    ensures { work.new ≡ work_after set need work.old }
{
    if checks::is_set(set) && work.len() >= need {
        wipe(work);
    }
}
