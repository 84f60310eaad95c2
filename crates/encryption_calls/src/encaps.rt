// The call of encapsulation (01: sealing of a shared key).
ghost use Rattle.std.specs.Prelude.{◌≡◌};
ghost use Rattle.calls.specs.Refusals.{status_of};
ghost use Rattle.kindi.specs.Params.{WellFormed, Parameters, of_set, encrypt_work};
ghost use Rattle.kindi.specs.Calls.{work_after};
ghost use Rattle.encryption_calls.specs.Status.{encaps_status};
ghost use Rattle.encryption_calls.specs.Exits.{EncapsExit};

use calls::refusal::Refusal;
use calls::{checks, kem, sizes, work};
use kindi::Params;
use vectors::lengths;

// The checks, of the set and the lengths alone.
#[tactic(auto, using(calls::proofs::Refused::refusals), unfolding(crate::specs::Status::encaps_status))]
fn check(
    set: u32,
    p: Params,
    pk: usize,
    coins: usize,
    key: usize,
    ct: usize,
    work: usize,
) -> Result<(), Refusal>
    requires { WellFormed p }
    ensures { status_of result ≡ encaps_status set p pk coins key ct work }
{
    checks::require(checks::is_set(set), Refusal::NoSuchSet)?;
    checks::require(pk == sizes::public_key(p), Refusal::WrongInputLen)?;
    checks::require(coins == p.coins, Refusal::WrongInputLen)?;
    checks::require(key == p.coins, Refusal::WrongOutputLen)?;
    checks::require(ct == lengths::ciphertext(p), Refusal::WrongOutputLen)?;
    checks::require(work >= sizes::encrypt_work(p), Refusal::WrongOutputLen)
}

// The call without the wiping of its work area, which its contract takes as done. The digest waits in the
// key's buffer, which is as long.
fn encaps_unwiped(
    set: u32,
    p: Params,
    pk: &[u8],
    coins: &[u8],
    key: &mut [u8],
    ct: &mut [u8],
    work: &mut [u8],
) -> Result<(), Refusal>
    requires { Parameters set p }
    ensures { EncapsExit set pk.now coins.now key.old
        ct.old work.old (status_of result) key.new ct.new (work_after set (encrypt_work (of_set set)) work.new) }
{
    check(
        set,
        p,
        pk.len(),
        coins.len(),
        key.len(),
        ct.len(),
        work.len(),
    )?;
    kem::digest(p, coins, key);
    encryption::encrypt(p, pk, coins, key, ct, work);
    kem::shared_key(p, coins, ct, key);
    Ok(())
}

// Makes a shared key from coins, and the ciphertext that carries it under a public key.
pub fn encaps(
    set: u32,
    pk: &[u8],
    coins: &[u8],
    key: &mut [u8],
    ct: &mut [u8],
    work: &mut [u8],
) -> Result<(), Refusal>
    ensures { EncapsExit set pk.now coins.now key.old
        ct.old work.old (status_of result) key.new ct.new work.new }
{
    let p = kindi::parameters(set);
    let answer = encaps_unwiped(set, p, pk, coins, key, ct, work);
    work::finish(set, sizes::encrypt_work(p), work);
    answer
}
