// The call of decryption (01: opening).
ghost use Rattle.std.specs.Prelude.{◌≡◌};
ghost use Rattle.calls.specs.Refusals.{status_of, value_of};
ghost use Rattle.kindi.specs.Params.{WellFormed, Parameters, of_set, decrypt_work};
ghost use Rattle.kindi.specs.Calls.{work_after};
ghost use Rattle.decryption_calls.specs.Status.{decrypt_status};
ghost use Rattle.decryption_calls.specs.Fitting.{decrypt_fitting, MessageRoom, MessageExit};
ghost use Rattle.decryption_calls.specs.Exits.{DecryptExit};

use crate::padding;
use bits::select;
use calls::refusal::Refusal;
use calls::{checks, sizes, work};
use kindi::Params;
use vectors::lengths;

// The checks, of the set and the lengths alone.
#[tactic(auto, using(calls::proofs::Refused::refusals), unfolding(crate::specs::Status::decrypt_status))]
fn check(
    set: u32,
    p: Params,
    sk: usize,
    ct: usize,
    coins: usize,
    message: usize,
    work: usize,
) -> Result<(), Refusal>
    requires { WellFormed p }
    ensures { status_of result ≡ decrypt_status set p sk ct coins message work }
{
    checks::require(checks::is_set(set), Refusal::NoSuchSet)?;
    checks::require(sk == sizes::secret_key(p), Refusal::WrongInputLen)?;
    checks::require(ct == lengths::ciphertext(p), Refusal::WrongInputLen)?;
    checks::require(coins == p.coins, Refusal::WrongOutputLen)?;
    checks::require(message == lengths::padded(p) - 1, Refusal::WrongOutputLen)?;
    checks::require(work >= sizes::decrypt_work(p), Refusal::WrongOutputLen)
}

// Decrypts where the lengths fit, and gives the message's length. The coins that are found stay apart until nothing is refused.
// The one branch on what is found is on both tests.
fn open_message(
    p: Params,
    sk: &[u8],
    ct: &[u8],
    found: &mut [u8],
    coins: &mut [u8],
    message: &mut [u8],
    work: &mut [u8],
) -> Result<usize, Refusal>
    requires { MessageRoom p sk.now ct.now found.old coins.old message.old work.old }
    ensures { MessageExit (decrypt_fitting p sk.now ct.now) coins.old message.old
        (status_of result) coins.new message.new (value_of (λ len. len) result) }
{
    decryption::recover_coins(p, sk, ct, found, work);
    let fits = decryption::open(p, sk, ct, found, work);
    let at = lengths::low(p);
    let end = at + lengths::padded(p);
    let ended = padding::ending(&work[at..end]);
    let len = ended.len;
    let marked = ended.mark == 1;
    let refusal = select(fits, Refusal::WrongPadding, Refusal::ErrorTooLarge);
    checks::require(fits & marked, refusal)?;
    coins.copy_from_slice(found);
    padding::write_message(&work[at..at + len], message);
    Ok(len)
}

// The call without the wiping of its work area, which its contract takes as done.
fn decrypt_unwiped(
    set: u32,
    p: Params,
    sk: &[u8],
    ct: &[u8],
    coins: &mut [u8],
    message: &mut [u8],
    work: &mut [u8],
) -> Result<usize, Refusal>
    requires { Parameters set p }
    ensures { DecryptExit set sk.now ct.now coins.old message.old
        work.old (status_of result) coins.new message.new (value_of (λ len. len) result) (work_after set (decrypt_work (of_set set)) work.new) }
{
    check(
        set,
        p,
        sk.len(),
        ct.len(),
        coins.len(),
        message.len(),
        work.len(),
    )?;
    let mut found = [0; 64];
    let k = p.coins;
    open_message(p, sk, ct, &mut found[..k], coins, message, work)
}

// Decrypts a ciphertext with a secret key, and gives the message's length.
pub fn decrypt(
    set: u32,
    sk: &[u8],
    ct: &[u8],
    coins: &mut [u8],
    message: &mut [u8],
    work: &mut [u8],
) -> Result<usize, Refusal>
    ensures { DecryptExit set sk.now ct.now coins.old message.old
        work.old (status_of result) coins.new message.new (value_of (λ len. len) result) work.new }
{
    let p = kindi::parameters(set);
    let answer = decrypt_unwiped(set, p, sk, ct, coins, message, work);
    work::finish(set, sizes::decrypt_work(p), work);
    answer
}
