// The noise as a sum of products over the integers, and its size.
ghost use Rattle.std.specs.Prelude.{◌≡◌, ◌+◌, ◌/◌, ◌^◌, ◌<◌, pos, nat_abs, ◌-ℤ◌, length, replicate};
ghost use Rattle.keccak.specs.Lists.{tabulate};
ghost use Rattle.ring.specs.Integers.{largest};
ghost use Rattle.ring.specs.Poly.{plus, minus, dot, of_ints};
ghost use Rattle.kindi.specs.Params.{WellFormed, modulus};
ghost use Rattle.kindi.specs.Streams.{small_in, ephemeral_by};
ghost use Rattle.kindi.specs.Noise.{inside};
ghost use Rattle.noise.specs.Rooms.{SumRoom, ErrorsRoom, KeysRoom, NoiseRoom, StreamsRoom};
ghost use Rattle.noise.specs.Terms.{key_noise_in, noise_in, noises_from};

use crate::{Measured, factors};
use kindi::Params;
use vectors::lengths;

// Adds the sum of e_j·r_j; x and s have room for factors.
fn add_errors(
    p: Params,
    masked: &[u8],
    secrets: &[u8],
    x: &mut [i16],
    s: &mut [i16],
    acc: &mut [i32],
)
    requires { (SumRoom p x.old s.old acc.old) × (ErrorsRoom p masked.now secrets.now) }
    ensures { acc.new ≡ tabulate p.n (plus (of_ints acc.old)
        (dot p.l p.n (small_in p masked.now) (small_in p secrets.now))) }
{
    for j in 0..p.l {
        factors::small(p, masked, j, x);
        factors::small(p, secrets, j, s);
        signed::multiply_add(acc, x, s);
    }
}

fn less(x: i16, y: i32) -> i32
    requires { nat_abs x + nat_abs y < 2 ^ 31 }
    ensures { result ≡ x -ℤ y }
{
    i32::from(x) - y
}

// x less acc.
fn subtract_from(x: &[i16], acc: &mut [i32])
    requires { (length x.now ≡ length acc.old) × (largest x.now + largest acc.old < 2 ^ 31) }
    ensures { acc.new ≡ tabulate (length acc.old) (minus (of_ints x.now) (of_ints acc.old)) }
{
    // By index: of a list that is written through a zip the proof would know its length alone.
    for (k, a) in acc.iter_mut().enumerate() {
        *a = less(x[k], *a);
    }
}

// Adds the sum of X_i·s_i.
fn add_keys(
    p: Params,
    b: &[u8],
    coins: &[u8],
    secrets: &[u8],
    stream: &[u8],
    high: &[u8],
    rest: &[u8],
    x: &mut [i16],
    s: &mut [i16],
    acc: &mut [i32],
)
    requires { (SumRoom p x.old s.old acc.old) × (KeysRoom p b.now coins.now secrets.now stream.now high.now rest.now) }
    ensures { acc.new ≡ tabulate p.n (plus (of_ints acc.old)
        (dot p.l p.n (key_noise_in p stream.now secrets.now b.now)
        (ephemeral_by p coins.now high.now rest.now))) }
{
    for i in 0..p.l {
        factors::key_noise(p, stream, secrets, b, i, x);
        factors::ephemeral(p, coins, high, rest, i, s);
        signed::multiply_add(acc, x, s);
    }
}

// The noise: e_(ℓ+1) less the sum of e_j·r_j, plus the sum of X_i·s_i.
fn accumulate(
    p: Params,
    b: &[u8],
    coins: &[u8],
    secrets: &[u8],
    stream: &[u8],
    x: &mut [i16],
    s: &mut [i16],
    acc: &mut [i32],
)
    requires { (NoiseRoom p b.now coins.now secrets.now stream.now) × (length x.old ≡ p.n) × (length s.old ≡ p.n) × (acc.old ≡ replicate p.n (pos 0)) }
    ensures { acc.new ≡ tabulate p.n (noise_in p b.now coins.now secrets.now stream.now) }
{
    let mask = lengths::mask(p);
    let end = mask.end;
    let rest = end + lengths::high(p);
    let masked = &stream[mask];
    add_errors(p, masked, secrets, x, s, acc);
    factors::small(p, masked, p.l, x);
    subtract_from(x, acc);
    add_keys(
        p,
        b,
        coins,
        secrets,
        stream,
        &stream[end..],
        &stream[rest..],
        x,
        s,
        acc,
    );
}

// q/4.
fn quarter(p: Params) -> i32
    requires { WellFormed p }
    ensures { result ≡ pos (modulus p / 4) }
{
    i32::from(vectors::power(p.k - 2))
}

// Whether the noise lies strictly between −q/4 and q/4, and its largest absolute value; streams are that of γ, then that of the
// coins with the masked message.
pub fn sizes(p: Params, b: &[u8], coins: &[u8], streams: &[u8]) -> Measured
    requires { StreamsRoom p b.now coins.now streams.now }
    ensures { (result.clear ≡ inside (modulus p) (noises_from p b.now coins.now streams.now))
        × (result.largest ≡ largest (noises_from p b.now coins.now streams.now)) }
{
    let n = p.n;
    let secrets = lengths::secrets(p);
    let mut x = [0i16; 512];
    let mut s = [0i16; 512];
    let mut acc = [0i32; 512];
    accumulate(
        p,
        b,
        coins,
        &streams[..secrets],
        &streams[secrets..],
        &mut x[..n],
        &mut s[..n],
        &mut acc[..n],
    );
    let end = quarter(p);
    let clear = signed::all_between(&acc[..n], -end, end);
    let largest = signed::largest(&acc[..n]);
    Measured { clear, largest }
}
