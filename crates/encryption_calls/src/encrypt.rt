// The call of encryption (01: sealing).
ghost use Rattle.std.specs.Prelude.{◌≡◌};
ghost use Rattle.calls.specs.Refusals.{status_of};
ghost use Rattle.kindi.specs.Params.{WellFormed, Parameters, of_set, encrypt_work};
ghost use Rattle.kindi.specs.Calls.{work_after};
ghost use Rattle.encryption_calls.specs.Status.{encrypt_status};
ghost use Rattle.encryption_calls.specs.Exits.{EncryptExit};

use calls::refusal::Refusal;
use calls::{checks, sizes, work};
use kindi::Params;
use vectors::lengths;

// The checks, of the set and the lengths alone.
#[tactic(auto, using(calls::proofs::Refused::refusals), unfolding(crate::specs::Status::encrypt_status))]
fn check(
    set: u32,
    p: Params,
    pk: usize,
    coins: usize,
    message: usize,
    ct: usize,
    work: usize,
) -> Result<(), Refusal>
    requires { WellFormed p }
    ensures { status_of result ≡ encrypt_status set p pk coins message ct work }
{
    checks::require(checks::is_set(set), Refusal::NoSuchSet)?;
    checks::require(pk == sizes::public_key(p), Refusal::WrongInputLen)?;
    checks::require(coins == p.coins, Refusal::WrongInputLen)?;
    checks::require(message < lengths::padded(p), Refusal::MessageTooLong)?;
    checks::require(ct == lengths::ciphertext(p), Refusal::WrongOutputLen)?;
    checks::require(work >= sizes::encrypt_work(p), Refusal::WrongOutputLen)
}

// The call without the wiping of its work area, which its contract takes as done.
fn encrypt_unwiped(
    set: u32,
    p: Params,
    pk: &[u8],
    coins: &[u8],
    message: &[u8],
    ct: &mut [u8],
    work: &mut [u8],
) -> Result<(), Refusal>
    requires { Parameters set p }
    ensures { EncryptExit set pk.now coins.now message.now
        ct.old work.old (status_of result) ct.new (work_after set (encrypt_work (of_set set)) work.new) }
{
    check(
        set,
        p,
        pk.len(),
        coins.len(),
        message.len(),
        ct.len(),
        work.len(),
    )?;
    encryption::encrypt(p, pk, coins, message, ct, work);
    Ok(())
}

// Encrypts a message with coins under a public key.
pub fn encrypt(
    set: u32,
    pk: &[u8],
    coins: &[u8],
    message: &[u8],
    ct: &mut [u8],
    work: &mut [u8],
) -> Result<(), Refusal>
    ensures { EncryptExit set pk.now coins.now message.now
        ct.old work.old (status_of result) ct.new work.new }
{
    let p = kindi::parameters(set);
    let answer = encrypt_unwiped(set, p, pk, coins, message, ct, work);
    work::finish(set, sizes::encrypt_work(p), work);
    answer
}
