// The call of decapsulation (01: opening of a shared key).
ghost use Rattle.std.specs.Prelude.{◌≡◌};
ghost use Rattle.calls.specs.Refusals.{status_of};
ghost use Rattle.kindi.specs.Params.{WellFormed, Parameters, of_set, decrypt_work};
ghost use Rattle.kindi.specs.Calls.{work_after};
ghost use Rattle.decryption_calls.specs.Status.{decaps_status};
ghost use Rattle.decryption_calls.specs.Fitting.{decaps_fitting, KeyRoom, KeyExit};
ghost use Rattle.decryption_calls.specs.Exits.{DecapsExit};

use crate::padding;
use bits::select;
use calls::refusal::Refusal;
use calls::{checks, kem, sizes, work};
use kindi::Params;
use vectors::lengths;

// The checks, of the set and the lengths alone.
#[tactic(auto, using(calls::proofs::Refused::refusals), unfolding(crate::specs::Status::decaps_status))]
fn check(set: u32, p: Params, sk: usize, ct: usize, key: usize, work: usize) -> Result<(), Refusal>
    requires { WellFormed p }
    ensures { status_of result ≡ decaps_status set p sk ct key work }
{
    checks::require(checks::is_set(set), Refusal::NoSuchSet)?;
    checks::require(sk == sizes::secret_key(p), Refusal::WrongInputLen)?;
    checks::require(ct == lengths::ciphertext(p), Refusal::WrongInputLen)?;
    checks::require(key == p.coins, Refusal::WrongOutputLen)?;
    checks::require(work >= sizes::decrypt_work(p), Refusal::WrongOutputLen)
}

// Decapsulates where the lengths fit: the padded message is that of the digest exactly when the two added give zeros. The one
// branch on what is found is on both tests.
fn open_key(
    p: Params,
    sk: &[u8],
    ct: &[u8],
    found: &mut [u8],
    d: &mut [u8],
    key: &mut [u8],
    work: &mut [u8],
) -> Result<(), Refusal>
    requires { KeyRoom p sk.now ct.now found.old d.old key.old work.old }
    ensures { KeyExit (decaps_fitting p sk.now ct.now) key.old (status_of result) key.new }
{
    decryption::recover_coins(p, sk, ct, found, work);
    let fits = decryption::open(p, sk, ct, found, work);
    kem::digest(p, found, d);
    let at = lengths::low(p);
    let end = at + lengths::padded(p);
    cipher_terms::add_padded(d, &mut work[at..end]);
    let equal = padding::all_zero(&work[at..end]);
    let refusal = select(fits, Refusal::WrongDigest, Refusal::ErrorTooLarge);
    checks::require(fits & equal, refusal)?;
    kem::shared_key(p, found, ct, key);
    Ok(())
}

// The call without the wiping of its work area, which its contract takes as done.
fn decaps_unwiped(
    set: u32,
    p: Params,
    sk: &[u8],
    ct: &[u8],
    key: &mut [u8],
    work: &mut [u8],
) -> Result<(), Refusal>
    requires { Parameters set p }
    ensures { DecapsExit set sk.now ct.now key.old work.old
        (status_of result) key.new (work_after set (decrypt_work (of_set set)) work.new) }
{
    check(set, p, sk.len(), ct.len(), key.len(), work.len())?;
    let mut found = [0; 64];
    let mut d = [0; 64];
    let k = p.coins;
    open_key(p, sk, ct, &mut found[..k], &mut d[..k], key, work)
}

// Makes the shared key again that a ciphertext carries.
pub fn decaps(
    set: u32,
    sk: &[u8],
    ct: &[u8],
    key: &mut [u8],
    work: &mut [u8],
) -> Result<(), Refusal>
    ensures { DecapsExit set sk.now ct.now key.old work.old
        (status_of result) key.new work.new }
{
    let p = kindi::parameters(set);
    let answer = decaps_unwiped(set, p, sk, ct, key, work);
    work::finish(set, sizes::decrypt_work(p), work);
    answer
}
