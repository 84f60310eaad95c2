// The call of the noise (01, "Noise").
ghost use Rattle.std.specs.Prelude.{◌≡◌};
ghost use Rattle.calls.specs.Refusals.{status_of, value_of};
ghost use Rattle.kindi.specs.Params.{WellFormed, Parameters, of_set, noise_work};
ghost use Rattle.kindi.specs.Calls.{work_after};
ghost use Rattle.noise_calls.specs.Status.{noise_status};
ghost use Rattle.noise_calls.specs.Fitting.{noise_fitting, NoiseRoom, SizeExit, clear_flag, largest_value};
ghost use Rattle.noise_calls.specs.Exits.{NoiseExit};

use calls::refusal::Refusal;
use calls::{checks, sizes, work};
use kindi::Params;
use noise::Measured;
use vectors::lengths;

// The checks, of the set and the lengths alone.
#[tactic(auto, using(calls::proofs::Refused::refusals), unfolding(crate::specs::Status::noise_status))]
fn check(
    set: u32,
    p: Params,
    sk: usize,
    coins: usize,
    message: usize,
    work: usize,
) -> Result<(), Refusal>
    requires { WellFormed p }
    ensures { status_of result ≡ noise_status set p sk coins message work }
{
    checks::require(checks::is_set(set), Refusal::NoSuchSet)?;
    checks::require(sk == sizes::secret_key(p), Refusal::WrongInputLen)?;
    checks::require(coins == p.coins, Refusal::WrongInputLen)?;
    checks::require(message < lengths::padded(p), Refusal::MessageTooLong)?;
    checks::require(work >= sizes::noise_work(p), Refusal::WrongOutputLen)
}

// The noise where the lengths fit.
fn measure_fitting(
    p: Params,
    sk: &[u8],
    coins: &[u8],
    message: &[u8],
    b: &mut [u8],
    work: &mut [u8],
) -> Result<Measured, Refusal>
    requires { NoiseRoom p sk.now coins.now message.now b.old work.old }
    ensures { SizeExit (noise_fitting p sk.now coins.now message.now)
        (status_of result) (value_of clear_flag result) (value_of largest_value result) }
{
    noise::public_value(p, sk, b, work);
    checks::require(noise::agree(p, sk, b), Refusal::WrongPublicKey)?;
    Ok(noise::measure(p, sk, b, coins, message, work))
}

// The call without the wiping of its work area, which its contract takes as done.
fn noise_unwiped(
    set: u32,
    p: Params,
    sk: &[u8],
    coins: &[u8],
    message: &[u8],
    work: &mut [u8],
) -> Result<Measured, Refusal>
    requires { Parameters set p }
    ensures { NoiseExit set sk.now coins.now message.now work.old
        (status_of result) (value_of clear_flag result) (value_of largest_value result) (work_after set (noise_work (of_set set)) work.new) }
{
    check(set, p, sk.len(), coins.len(), message.len(), work.len())?;
    let mut b = [0; 3072];
    let end = lengths::length_of(p, p.l, p.k);
    measure_fitting(p, sk, coins, message, &mut b[..end], work)
}

// Tells whether coins and a message are clear under a secret key, and the largest absolute value of their noise.
pub fn noise(
    set: u32,
    sk: &[u8],
    coins: &[u8],
    message: &[u8],
    work: &mut [u8],
) -> Result<Measured, Refusal>
    ensures { NoiseExit set sk.now coins.now message.now work.old
        (status_of result) (value_of clear_flag result) (value_of largest_value result) work.new }
{
    let p = kindi::parameters(set);
    let answer = noise_unwiped(set, p, sk, coins, message, work);
    work::finish(set, sizes::noise_work(p), work);
    answer
}
