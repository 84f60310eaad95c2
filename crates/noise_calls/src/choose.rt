// The call of the coin choice (01, "Noise").
ghost use Rattle.std.specs.Prelude.{◌≡◌, ◌<◌, is_some, unwrap_or};
ghost use Rattle.calls.specs.Refusals.{status_of, value_of};
ghost use Rattle.kindi.specs.Params.{WellFormed, Parameters, of_set, noise_work};
ghost use Rattle.kindi.specs.Calls.{work_after};
ghost use Rattle.kindi.specs.Answers.{clear_places};
ghost use Rattle.noise_calls.specs.Status.{whole_coins, choose_status};
ghost use Rattle.noise_calls.specs.Fitting.{choose_fitting, ChooseRoom, PlaceExit, SearchRoom, Search};
ghost use Rattle.noise_calls.specs.Exits.{ChooseExit};

use bits::select;
use calls::refusal::Refusal;
use calls::{checks, sizes, work};
use kindi::Params;
use vectors::lengths;

// Whether a list of this length has 1 to 8 whole coins.
fn whole_coins(coins: usize, long: usize) -> bool
    requires { 0 < coins }
    ensures { result ≡ whole_coins coins long }
{
    let count = long / coins;
    (long % coins == 0) & ((1 <= count) & (count <= 8))
}

// The checks, of the set and the lengths alone.
#[tactic(auto, using(calls::proofs::Refused::refusals), unfolding(crate::specs::Status::choose_status))]
fn check(
    set: u32,
    p: Params,
    sk: usize,
    message: usize,
    list: usize,
    work: usize,
) -> Result<(), Refusal>
    requires { WellFormed p }
    ensures { status_of result ≡ choose_status set p sk message list work }
{
    checks::require(checks::is_set(set), Refusal::NoSuchSet)?;
    checks::require(sk == sizes::secret_key(p), Refusal::WrongInputLen)?;
    checks::require(whole_coins(p.coins, list), Refusal::WrongInputLen)?;
    checks::require(message < lengths::padded(p), Refusal::MessageTooLong)?;
    checks::require(work >= sizes::noise_work(p), Refusal::WrongOutputLen)
}

// The place of the first clear coins of the list. All are measured, whatever is found, before a branch on it.
fn search(
    p: Params,
    sk: &[u8],
    b: &[u8],
    message: &[u8],
    list: &[u8],
    work: &mut [u8],
) -> Option<u32>
    requires { SearchRoom p sk.now b.now message.now list.now work.old }
    ensures { Search (clear_places p sk.now message.now list.now) (is_some result) (unwrap_or result 0) }
{
    let coins = p.coins;
    let count = list.len() / coins;
    let mut found = false;
    let mut place = 0;
    for i in 0..count {
        let at = i * coins;
        let measured = noise::measure(p, sk, b, &list[at..at + coins], message, work);
        place = select(found, place, i as u32);
        found |= measured.clear;
    }
    found.then_some(place)
}

// Chooses where the lengths fit.
fn choose_fitting(
    p: Params,
    sk: &[u8],
    message: &[u8],
    list: &[u8],
    b: &mut [u8],
    work: &mut [u8],
) -> Result<u32, Refusal>
    requires { ChooseRoom p sk.now message.now list.now b.old work.old }
    ensures { PlaceExit (choose_fitting p sk.now message.now list.now) (status_of result) (value_of (λ place. place) result) }
{
    noise::public_value(p, sk, b, work);
    checks::require(noise::agree(p, sk, b), Refusal::WrongPublicKey)?;
    search(p, sk, b, message, list, work).ok_or(Refusal::NoneClear)
}

// The call without the wiping of its work area, which its contract takes as done.
fn choose_unwiped(
    set: u32,
    p: Params,
    sk: &[u8],
    message: &[u8],
    list: &[u8],
    work: &mut [u8],
) -> Result<u32, Refusal>
    requires { Parameters set p }
    ensures { ChooseExit set sk.now message.now list.now work.old
        (status_of result) (value_of (λ place. place) result) (work_after set (noise_work (of_set set)) work.new) }
{
    check(set, p, sk.len(), message.len(), list.len(), work.len())?;
    let mut b = [0; 3072];
    let end = lengths::length_of(p, p.l, p.k);
    choose_fitting(p, sk, message, list, &mut b[..end], work)
}

// Gives the place of clear coins in a list of 1 to 8.
pub fn choose(
    set: u32,
    sk: &[u8],
    message: &[u8],
    list: &[u8],
    work: &mut [u8],
) -> Result<u32, Refusal>
    ensures { ChooseExit set sk.now message.now list.now work.old
        (status_of result) (value_of (λ place. place) result) work.new }
{
    let p = kindi::parameters(set);
    let answer = choose_unwiped(set, p, sk, message, list, work);
    work::finish(set, sizes::noise_work(p), work);
    answer
}
