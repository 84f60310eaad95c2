// The SHAKE calls (02, No. 2): any number of bytes of the output from any place on, counted from 0.
ghost use Rattle.std.specs.Prelude.{◌≡◌, ◌+◌, ◌≤◌, ◌<◌, leb};
ghost use Rattle.calls.specs.Exits.{ShakeExit};
ghost use Rattle.calls.specs.Refusals.{status_of};

use crate::checks;
use crate::refusal::Refusal;

// Whether bytes from a place on end at 1,048,576 at the latest. Place and length are not added, so nothing overflows.
fn within(place: usize, long: usize) -> bool
    ensures { result ≡ leb (place + long) 1048576 }
{
    long <= 1048576 && place <= 1048576 - long
}

// SHAKE at a rate in bytes. A variant of SHAKE is its rate, of which `hash` takes any from 1 to 200: an enum would say no more.
fn from_place(rate: usize, input: &[u8], place: usize, output: &mut [u8]) -> Result<(), Refusal>
    requires { (0 < rate) × (rate ≤ 200) }
    ensures { ShakeExit rate input.now place output.old (status_of result) output.new }
{
    checks::require(within(place, output.len()), Refusal::PastLimit)?;
    hash::shake_from(rate, input, place, output);
    Ok(())
}

pub fn shake128(input: &[u8], place: usize, output: &mut [u8]) -> Result<(), Refusal>
    ensures { ShakeExit 168 input.now place output.old (status_of result) output.new }
{
    from_place(168, input, place, output)
}

pub fn shake256(input: &[u8], place: usize, output: &mut [u8]) -> Result<(), Refusal>
    ensures { ShakeExit 136 input.now place output.old (status_of result) output.new }
{
    from_place(136, input, place, output)
}
