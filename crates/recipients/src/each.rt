// The call of encryption to several recipients: its checks, and a ciphertext for each.
ghost use Rattle.std.specs.Prelude.{◌≡◌, ◌*◌, ◌≤◌};
ghost use Rattle.calls.specs.Refusals.{status_of};
ghost use Rattle.kindi.specs.Params.{WellFormed, Parameters, of_set, encrypt_work};
ghost use Rattle.kindi.specs.Calls.{work_after};
ghost use Rattle.kindi.specs.Answers.{is_count, ciphertexts};
ghost use Rattle.recipients.specs.Status.{encrypt_each_status};
ghost use Rattle.recipients.specs.Rooms.{PartsRoom};
ghost use Rattle.recipients.specs.Exits.{EncryptEachExit};

use crate::coins;
use calls::refusal::Refusal;
use calls::{checks, sizes, work};
use kindi::Params;
use vectors::lengths;

// Whether so many recipients are taken.
fn is_count(count: u32) -> bool
    ensures { result ≡ is_count count }
{
    matches!(count, 1..=12)
}

// The length of `count` parts.
fn times(count: u32, long: usize) -> usize
    requires { long ≤ 131072 }
    ensures { result ≡ count * long }
{
    count as usize * long
}

// The checks, of the set, the number of recipients and the lengths alone.
#[tactic(auto, using(calls::proofs::Refused::refusals), unfolding(crate::specs::Status::encrypt_each_status))]
fn check(
    set: u32,
    p: Params,
    count: u32,
    keys: usize,
    list: usize,
    message: usize,
    cts: usize,
    work: usize,
) -> Result<(), Refusal>
    requires { WellFormed p }
    ensures { status_of result ≡ encrypt_each_status set p count keys list message cts work }
{
    checks::require(checks::is_set(set), Refusal::NoSuchSet)?;
    checks::require(is_count(count), Refusal::WrongCount)?;
    checks::require(
        keys == times(count, sizes::public_key(p)),
        Refusal::WrongInputLen,
    )?;
    checks::require(list == times(count, p.coins), Refusal::WrongInputLen)?;
    checks::require(message < lengths::padded(p), Refusal::MessageTooLong)?;
    checks::require(
        cts == times(count, lengths::ciphertext(p)),
        Refusal::WrongOutputLen,
    )?;
    checks::require(work >= sizes::encrypt_work(p), Refusal::WrongOutputLen)
}

// The ciphertexts, recipient by recipient. By place: of what is written by `chunks_exact_mut` a proof knows no byte.
#[tactic(auto, using(crate::proofs::Places::key_there, crate::proofs::Places::coins_there, crate::proofs::Places::part_there))]
fn encrypt_parts(
    p: Params,
    count: usize,
    keys: &[u8],
    list: &[u8],
    message: &[u8],
    dst: &mut [u8],
    work: &mut [u8],
)
    requires { PartsRoom p count keys.now list.now message.now dst.old work.old }
    ensures { dst.new ≡ ciphertexts p count keys.now list.now message.now }
{
    let key = sizes::public_key(p);
    let coins = p.coins;
    let part = lengths::ciphertext(p);
    for i in 0..count {
        let key_at = i * key;
        let coins_at = i * coins;
        let at = i * part;
        encryption::encrypt(
            p,
            &keys[key_at..key_at + key],
            &list[coins_at..coins_at + coins],
            message,
            &mut dst[at..at + part],
            work,
        );
    }
}

// The call without the wiping of its work area, which its contract takes as done.
fn encrypt_each_unwiped(
    set: u32,
    p: Params,
    count: u32,
    keys: &[u8],
    list: &[u8],
    message: &[u8],
    cts: &mut [u8],
    work: &mut [u8],
) -> Result<(), Refusal>
    requires { Parameters set p }
    ensures { EncryptEachExit set count keys.now list.now message.now
        cts.old work.old (status_of result) cts.new (work_after set (encrypt_work (of_set set)) work.new) }
{
    check(
        set,
        p,
        count,
        keys.len(),
        list.len(),
        message.len(),
        cts.len(),
        work.len(),
    )?;
    let recipients = count as usize;
    checks::require(
        !coins::equal_coins(p, recipients, list),
        Refusal::EqualCoins,
    )?;
    encrypt_parts(p, recipients, keys, list, message, cts, work);
    Ok(())
}

// Encrypts one message to several recipients, each with a public key and coins of its own.
pub fn encrypt_each(
    set: u32,
    count: u32,
    keys: &[u8],
    list: &[u8],
    message: &[u8],
    cts: &mut [u8],
    work: &mut [u8],
) -> Result<(), Refusal>
    ensures { EncryptEachExit set count keys.now list.now message.now
        cts.old work.old (status_of result) cts.new work.new }
{
    let p = kindi::parameters(set);
    let answer = encrypt_each_unwiped(set, p, count, keys, list, message, cts, work);
    work::finish(set, sizes::encrypt_work(p), work);
    answer
}
