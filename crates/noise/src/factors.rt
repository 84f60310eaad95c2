// The polynomials of the noise with integer coefficients, read from their strings one by one.
ghost use Rattle.std.specs.Prelude.{◌≡◌, ◌<◌, pos, ◌+ℤ◌, ◌-ℤ◌, length};
ghost use Rattle.keccak.specs.Lists.{tabulate};
ghost use Rattle.ring.specs.Integers.{centred};
ghost use Rattle.kindi.specs.Params.{width};
ghost use Rattle.kindi.specs.Streams.{coefficient, small_in, first_in, ephemeral_by};
ghost use Rattle.noise.specs.Rooms.{StringRoom, FirstRoom, EphemeralRoom, KeyNoiseRoom, CombineRoom};
ghost use Rattle.noise.specs.Terms.{key_noise_in, combined};

use kindi::Params;
use vectors::lengths;

// Polynomial m of a string, w bits a coefficient.
pub fn values(p: Params, w: u32, bytes: &[u8], m: usize, dst: &mut [u16])
    requires { StringRoom p w bytes.now m (length dst.old) }
    ensures { dst.new ≡ tabulate p.n (coefficient w p.n bytes.now m) }
{
    let at = lengths::length_of(p, m, w);
    packing::unpack(w, &bytes[at..], dst);
}

// Small polynomial m of a string.
pub fn small(p: Params, bytes: &[u8], m: usize, dst: &mut [i16])
    requires { StringRoom p (width p) bytes.now m (length dst.old) }
    ensures { dst.new ≡ tabulate p.n (small_in p bytes.now m) }
{
    let n = p.n;
    let mut v = [0u16; 512];
    values(p, lengths::width(p), bytes, m, &mut v[..n]);
    signed::centre(&v[..n], p.p, dst);
}

// s_1 from the coins and a string that begins with h.
fn first(p: Params, coins: &[u8], high: &[u8], dst: &mut [i16])
    requires { FirstRoom p coins.now high.now (length dst.old) }
    ensures { dst.new ≡ tabulate p.n (first_in p coins.now high.now) }
{
    let n = p.n;
    let mut v = [0u16; 512];
    let mut h = [0u16; 512];
    let v = &mut v[..n];
    let h = &mut h[..n];
    values(p, 1, coins, 0, v);
    values(p, lengths::width(p) - 1, high, 0, h);
    vectors::raise(h, 1);
    ring::poly::add(v, h);
    signed::centre(v, p.p, dst);
}

// s_1, or polynomial i of s_2 to s_ℓ.
pub fn ephemeral(p: Params, coins: &[u8], high: &[u8], rest: &[u8], i: usize, dst: &mut [i16])
    requires { EphemeralRoom p coins.now high.now rest.now i (length dst.old) }
    ensures { dst.new ≡ tabulate p.n (ephemeral_by p coins.now high.now rest.now i) }
{
    if i == 0 {
        first(p, coins, high, dst);
    } else {
        small(p, rest, i - 1, dst);
    }
}

// X at a coefficient.
fn key_noise_at(w: u16, half: u16, r: u16, p: u16, low: u16) -> i16
    requires { (w < 4096) × (half < 4096) × (r < 4096) × (p < 4096) × (low < 4096) }
    ensures { result ≡ (centred half w +ℤ centred p r) -ℤ pos low }
{
    (w as i16 - half as i16) + (r as i16 - p as i16) - low as i16
}

// X from the values of w, of r' and of the low bits of b.
fn combine(p: Params, w: &[u16], r: &[u16], low: &[u16], dst: &mut [i16])
    requires { CombineRoom p w.now r.now low.now (length dst.old) }
    ensures { dst.new ≡ combined p w.now r.now low.now }
{
    let half = vectors::power(p.t - 1);
    // By index: of a list that is written through a zip the proof would know its length alone.
    for (k, x) in dst.iter_mut().enumerate() {
        *x = key_noise_at(w[k], half, r[k], p.p, low[k]);
    }
}

// X_i.
pub fn key_noise(p: Params, stream: &[u8], secrets: &[u8], b: &[u8], i: usize, dst: &mut [i16])
    requires { KeyNoiseRoom p stream.now secrets.now b.now i (length dst.old) }
    ensures { dst.new ≡ tabulate p.n (key_noise_in p stream.now secrets.now b.now i) }
{
    let n = p.n;
    let mut w = [0u16; 512];
    let mut r = [0u16; 512];
    let mut v = [0u16; 512];
    let w = &mut w[..n];
    let r = &mut r[..n];
    let v = &mut v[..n];
    values(p, p.t, stream, i, w);
    values(p, lengths::width(p), secrets, p.l + i, r);
    values(p, p.k, b, i, v);
    bits::reduce(v, p.t);
    combine(p, w, r, v, dst);
}
