// The noise of an encryption (01, "Noise"): b in full and whether a key stores it, then how large the noise of coins and a
// message is.
#![tactic(auto)]

ghost use Rattle.std.specs.Prelude.{◌≡◌};
ghost use Rattle.kindi.specs.Answers.{agrees, clear_under, largest_under};
ghost use Rattle.noise.specs.Rooms.{value_of, Kept, ValueRoom, KeyRoom, MeasureRoom};

mod agreement;
mod factors;
mod sums;

use cipher_terms::masked_stream;
use keys::public_polynomials;
use kindi::Params;
use vectors::lengths;

// Whether a pair is clear, and the largest absolute value of its noise.
#[derive(Clone, Copy)]
pub struct Measured {
    pub clear: bool,
    pub largest: u32,
}

// b in full, k bits a coefficient, from a secret key's μ and γ; the stream of γ stays in the work area.
pub fn public_value(p: Params, sk: &[u8], b: &mut [u8], work: &mut [u8])
    requires { ValueRoom p sk.now b.old work.old }
    ensures { (b.new ≡ value_of p sk.now) × Kept p sk.now work.new }
{
    let secrets = lengths::secrets(p);
    let stored = lengths::stored(p);
    let public = stored + p.seed;
    let end = public + p.seed;
    public_polynomials(
        p,
        0,
        &sk[stored..public],
        &sk[public..end],
        secrets,
        work,
        b,
    );
}

// Whether the stored public key is that of μ and γ; b is what `public_value` leaves. It stands apart from that, with two
// callers, so that the compiler keeps it apart and its arrays do not lie on the stack while b is computed.
pub fn agree(p: Params, sk: &[u8], b: &[u8]) -> bool
    requires { KeyRoom p sk.now b.now }
    ensures { result ≡ agrees p sk.now }
{
    let n = p.n;
    let stored = lengths::stored(p);
    let part = lengths::length_of(p, 1, p.k - p.t);
    let mut values = [0u16; 512];
    let mut dropped = [0u8; 1024];
    agreement::agree(p, b, &sk[..stored], &mut values[..n], &mut dropped[..part])
}

// Whether coins and a message are clear, and the largest absolute value of their noise; b and the stream of γ are what
// `public_value` leaves, so of sk, which the promise speaks of, nothing is read again.
pub fn measure(
    p: Params,
    sk: &[u8],
    b: &[u8],
    coins: &[u8],
    message: &[u8],
    work: &mut [u8],
) -> Measured
    requires { MeasureRoom p sk.now b.now coins.now message.now work.old }
    ensures { (result.clear ≡ clear_under p sk.now coins.now message.now)
        × (result.largest ≡ largest_under p sk.now coins.now message.now)
        × Kept p sk.now work.new }
{
    let secrets = lengths::secrets(p);
    let end = secrets + lengths::coins_stream(p);
    masked_stream(p, coins, message, &mut work[secrets..end]);
    sums::sizes(p, b, coins, &work[..end])
}
