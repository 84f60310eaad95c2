// The call of keygen (01: key making).
ghost use Rattle.std.specs.Prelude.{◌≡◌};
ghost use Rattle.calls.specs.Refusals.{status_of};
ghost use Rattle.kindi.specs.Params.{WellFormed, Parameters, of_set, keygen_work};
ghost use Rattle.kindi.specs.Calls.{work_after};
ghost use Rattle.encryption_calls.specs.Status.{keygen_status};
ghost use Rattle.encryption_calls.specs.Exits.{KeygenExit};

use calls::refusal::Refusal;
use calls::{checks, sizes, work};
use kindi::Params;

// The checks, of the set and the lengths alone.
#[tactic(auto, using(calls::proofs::Refused::refusals), unfolding(crate::specs::Status::keygen_status))]
fn check(
    set: u32,
    p: Params,
    mu: usize,
    gamma: usize,
    z: usize,
    pk: usize,
    sk: usize,
    work: usize,
) -> Result<(), Refusal>
    requires { WellFormed p }
    ensures { status_of result ≡ keygen_status set p mu gamma z pk sk work }
{
    checks::require(checks::is_set(set), Refusal::NoSuchSet)?;
    checks::require(mu == p.seed, Refusal::WrongInputLen)?;
    checks::require(gamma == p.seed, Refusal::WrongInputLen)?;
    checks::require(z == p.seed, Refusal::WrongInputLen)?;
    checks::require(pk == sizes::public_key(p), Refusal::WrongOutputLen)?;
    checks::require(sk == sizes::secret_key(p), Refusal::WrongOutputLen)?;
    checks::require(work >= sizes::keygen_work(p), Refusal::WrongOutputLen)
}

// The call without the wiping of its work area, which its contract takes as done.
fn keygen_unwiped(
    set: u32,
    p: Params,
    mu: &[u8],
    gamma: &[u8],
    z: &[u8],
    pk: &mut [u8],
    sk: &mut [u8],
    work: &mut [u8],
) -> Result<(), Refusal>
    requires { Parameters set p }
    ensures { KeygenExit set mu.now gamma.now z.now
        pk.old sk.old work.old (status_of result) pk.new sk.new (work_after set (keygen_work (of_set set)) work.new) }
{
    check(
        set,
        p,
        mu.len(),
        gamma.len(),
        z.len(),
        pk.len(),
        sk.len(),
        work.len(),
    )?;
    keys::keygen(p, mu, gamma, z, pk, sk, work);
    Ok(())
}

// Makes a public and a secret key from three seeds.
pub fn keygen(
    set: u32,
    mu: &[u8],
    gamma: &[u8],
    z: &[u8],
    pk: &mut [u8],
    sk: &mut [u8],
    work: &mut [u8],
) -> Result<(), Refusal>
    ensures { KeygenExit set mu.now gamma.now z.now
        pk.old sk.old work.old (status_of result) pk.new sk.new work.new }
{
    let p = kindi::parameters(set);
    let answer = keygen_unwiped(set, p, mu, gamma, z, pk, sk, work);
    work::finish(set, sizes::keygen_work(p), work);
    answer
}
