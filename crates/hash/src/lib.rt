// SHAKE128 and SHAKE256 (FIPS 202) by their rates of 168 and 136 bytes, for inputs and outputs of every length.
#![tactic(auto)]

pub mod sponge;

ghost use Rattle.std.specs.Prelude.{◌≡◌, ◌≤◌, ◌<◌, length};
ghost use Rattle.hash.specs.Shake.{shake_from, shake};

use sponge::Sponge;

// Fills output with the bytes of SHAKE of input from a place on, counted from 0, at a rate in bytes.
pub fn shake_from(rate: usize, input: &[u8], place: usize, output: &mut [u8])
    requires { (0 < rate) × (rate ≤ 200) }
    ensures { output.new ≡ shake_from rate input.now place (length output.old) }
{
    let taken = Sponge::new(rate).absorb(input);
    let complete = taken.finish();
    let there = complete.skip(place);
    there.squeeze(output);
}

// Fills output with the first bytes of SHAKE of input.
pub fn shake(rate: usize, input: &[u8], output: &mut [u8])
    requires { (0 < rate) × (rate ≤ 200) }
    ensures { output.new ≡ shake rate input.now (length output.old) }
{
    shake_from(rate, input, 0, output)
}
