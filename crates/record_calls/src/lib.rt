// The calls over the bodies of records (01, "Records on standard input"): a body is cut into the inputs of its call, and the
// output stands in two lent buffers, a part in each.
#![tactic(auto)]

ghost use Rattle.std.specs.Prelude.{◌≡◌, cond, not};
ghost use Rattle.calls.specs.Refusals.{status_of};
ghost use Rattle.kindi.specs.Params.{is_set};
ghost use Rattle.record_calls.specs.Outputs.{Room, outcome_of, AnswerExit};

use calls::refusal::Refusal;
use calls::{checks, sizes};
use decryption_calls::{decaps, decrypt};
use encryption_calls::{encaps, encrypt, keygen};
use vectors::lengths;

// How many bytes of a call's output stand in the first and in the second buffer.
#[derive(Clone, Copy)]
pub struct Output {
    pub first: usize,
    pub second: usize,
}

// The checks before the call: the set, then the body's length.
#[tactic(auto, using(calls::proofs::Refused::refusals))]
fn check(set: u32, length_fits: bool) -> Result<(), Refusal>
    ensures { status_of result ≡ cond (not (is_set set)) 1 (cond (not length_fits) 2 0) }
{
    checks::require(checks::is_set(set), Refusal::NoSuchSet)?;
    checks::require(length_fits, Refusal::WrongInputLen)
}

// Kind 1.
fn make_keys(
    set: u32,
    body: &[u8],
    first: &mut [u8],
    second: &mut [u8],
    work: &mut [u8],
) -> Result<Output, Refusal>
    requires { Room first.old second.old work.old }
    ensures { AnswerExit 1 set body.now first.old second.old work.old
        (outcome_of result) first.new second.new work.new }
{
    let p = kindi::parameters(set);
    let seed = p.seed;
    check(set, body.len() == 3 * seed)?;
    let twice = 2 * seed;
    let public = sizes::public_key(p);
    let secret = sizes::secret_key(p);
    let need = sizes::keygen_work(p);
    keygen::keygen(
        set,
        &body[..seed],
        &body[seed..twice],
        &body[twice..],
        &mut first[..public],
        &mut second[..secret],
        &mut work[..need],
    )?;
    Ok(Output {
        first: public,
        second: secret,
    })
}

// Kind 2.
fn encrypt_message(
    set: u32,
    body: &[u8],
    first: &mut [u8],
    second: &[u8],
    work: &mut [u8],
) -> Result<Output, Refusal>
    requires { Room first.old second.now work.old }
    ensures { AnswerExit 2 set body.now first.old second.now work.old
        (outcome_of result) first.new second.now work.new }
{
    let p = kindi::parameters(set);
    let public = sizes::public_key(p);
    let end = public + p.coins;
    check(set, body.len() >= end)?;
    let cipher = lengths::ciphertext(p);
    let need = sizes::encrypt_work(p);
    encrypt::encrypt(
        set,
        &body[..public],
        &body[public..end],
        &body[end..],
        &mut first[..cipher],
        &mut work[..need],
    )?;
    Ok(Output {
        first: cipher,
        second: 0,
    })
}

// Kind 3.
fn decrypt_message(
    set: u32,
    body: &[u8],
    first: &mut [u8],
    second: &mut [u8],
    work: &mut [u8],
) -> Result<Output, Refusal>
    requires { Room first.old second.old work.old }
    ensures { AnswerExit 3 set body.now first.old second.old work.old
        (outcome_of result) first.new second.new work.new }
{
    let p = kindi::parameters(set);
    let secret = sizes::secret_key(p);
    check(set, body.len() == secret + lengths::ciphertext(p))?;
    let coins = p.coins;
    let most = lengths::padded(p) - 1;
    let need = sizes::decrypt_work(p);
    let length = decrypt::decrypt(
        set,
        &body[..secret],
        &body[secret..],
        &mut first[..coins],
        &mut second[..most],
        &mut work[..need],
    )?;
    Ok(Output {
        first: coins,
        second: length,
    })
}

// Kind 4.
fn encapsulate(
    set: u32,
    body: &[u8],
    first: &mut [u8],
    second: &mut [u8],
    work: &mut [u8],
) -> Result<Output, Refusal>
    requires { Room first.old second.old work.old }
    ensures { AnswerExit 4 set body.now first.old second.old work.old
        (outcome_of result) first.new second.new work.new }
{
    let p = kindi::parameters(set);
    let public = sizes::public_key(p);
    let coins = p.coins;
    check(set, body.len() == public + coins)?;
    let cipher = lengths::ciphertext(p);
    let need = sizes::encrypt_work(p);
    encaps::encaps(
        set,
        &body[..public],
        &body[public..],
        &mut first[..coins],
        &mut second[..cipher],
        &mut work[..need],
    )?;
    Ok(Output {
        first: coins,
        second: cipher,
    })
}

// Kind 5.
fn decapsulate(
    set: u32,
    body: &[u8],
    first: &mut [u8],
    second: &[u8],
    work: &mut [u8],
) -> Result<Output, Refusal>
    requires { Room first.old second.now work.old }
    ensures { AnswerExit 5 set body.now first.old second.now work.old
        (outcome_of result) first.new second.now work.new }
{
    let p = kindi::parameters(set);
    let secret = sizes::secret_key(p);
    check(set, body.len() == secret + lengths::ciphertext(p))?;
    let coins = p.coins;
    let need = sizes::decrypt_work(p);
    decaps::decaps(
        set,
        &body[..secret],
        &body[secret..],
        &mut first[..coins],
        &mut work[..need],
    )?;
    Ok(Output {
        first: coins,
        second: 0,
    })
}

// The call of a kind from 1 to 5. The kind stays a number, and 5 stands for what is none of 1 to 4: callers may give any number
// (docs/PROMISES.md, which also names the two buffers and the work area one by one).
pub fn answer(
    kind: u8,
    set: u32,
    body: &[u8],
    first: &mut [u8],
    second: &mut [u8],
    work: &mut [u8],
) -> Result<Output, Refusal>
    requires { Room first.old second.old work.old }
    ensures { AnswerExit kind set body.now first.old second.old work.old
        (outcome_of result) first.new second.new work.new }
{
    match kind {
        1 => make_keys(set, body, first, second, work),
        2 => encrypt_message(set, body, first, second, work),
        3 => decrypt_message(set, body, first, second, work),
        4 => encapsulate(set, body, first, second, work),
        _ => decapsulate(set, body, first, second, work),
    }
}
