// The coins found by rounding.
ghost use Rattle.std.specs.Prelude.{◌≡◌, map, ◌^◌, ◌≤◌};
ghost use Rattle.ring.specs.Poly.{residues, parts};
ghost use Rattle.kindi.specs.Decrypt.{rounded_bit, rounded_coins};
ghost use Rattle.decryption.specs.Opened.{value_by, coins_from};
ghost use Rattle.decryption.specs.Inputs.{ValueRoom, CoinsRoom, RecoverRoom};

use kindi::Params;
use vectors::lengths;

// V = D − sum of C_j·r_j modulo 2^16, in d; v is room for the sum.
fn noisy_value(p: Params, ct: &[u8], r: &[u16], f: &mut [u16], d: &mut [u16], v: &mut [u16])
    requires { ValueRoom p ct.now r.now f.old d.old v.old }
    ensures { d.new ≡ residues 65536 p.n (value_by p ct.now (parts p.n r.now)) }
{
    let at = lengths::length_of(p, p.l, p.k);
    packing::unpack(p.k, ct, f);
    packing::unpack(p.k, &ct[at..], d);
    ring::poly::negate(d, v);
    product::dot_add(v, f, r, p.l);
    ring::poly::negate(v, d);
}

// A bit of the coins.
fn rounded(v: u16, k: u32) -> u16
    requires { (2 ≤ k) × (k ≤ 16) }
    ensures { result ≡ rounded_bit (2 ^ k) v }
{
    (((u32::from(v) + u32::from(vectors::power(k - 2))) >> (k - 1)) % 2) as u16
}

fn round(xs: &mut [u16], k: u32)
    requires { (2 ≤ k) × (k ≤ 16) }
    ensures { xs.new ≡ map (rounded_bit (2 ^ k)) xs.old }
{
    for x in xs.iter_mut() {
        *x = rounded(*x, k);
    }
}

// The coins that a ciphertext rounds to with the secret vector that a string begins with.
fn coins_from(
    p: Params,
    bytes: &[u8],
    ct: &[u8],
    r: &mut [u16],
    f: &mut [u16],
    d: &mut [u16],
    v: &mut [u16],
    coins: &mut [u8],
)
    requires { CoinsRoom p bytes.now ct.now r.old f.old d.old v.old coins.old }
    ensures { coins.new ≡ coins_from p bytes.now ct.now }
{
    vectors::small(lengths::width(p), bytes, p.p, r);
    noisy_value(p, ct, r, f, d, v);
    round(d, p.k);
    packing::pack(1, d, coins);
}

// The recovered coins of a secret seed and a ciphertext; only the secret vector is read of the stream of γ.
pub fn recover_coins(p: Params, gamma: &[u8], ct: &[u8], coins: &mut [u8], work: &mut [u8])
    requires { RecoverRoom p ct.now coins.old work.old }
    ensures { coins.new ≡ rounded_coins p gamma.now ct.now }
{
    let n = p.n;
    let vector = p.l * n;
    let need = lengths::length_of(p, p.l, lengths::width(p));
    let mut r = [0u16; 1536];
    let mut f = [0u16; 1536];
    let mut d = [0u16; 512];
    let mut v = [0u16; 512];
    hash::shake(p.rate, gamma, &mut work[..need]);
    coins_from(
        p,
        &work[..need],
        ct,
        &mut r[..vector],
        &mut f[..vector],
        &mut d[..n],
        &mut v[..n],
        coins,
    );
}
