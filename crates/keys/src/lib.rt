// Keygen over any well-formed parameters, on slices of the right lengths (01: key making).
#![tactic(auto)]

ghost use Rattle.std.specs.Prelude.{◌≡◌, map, ◌+◌, ◌-◌, take};
ghost use Rattle.hash.specs.Shake.{shake};
ghost use Rattle.bits.specs.Bits.{pack, low_bits};
ghost use Rattle.kindi.specs.Params.{secrets_length};
ghost use Rattle.kindi.specs.Streams.{small_in};
ghost use Rattle.kindi.specs.Keys.{compress, public, public_key, secret_key};
ghost use Rattle.vectors.specs.Vectors.{vector};
ghost use Rattle.keys.specs.Stored.{stored_of};
ghost use Rattle.keys.specs.Inputs.{SecretsRoom, VectorRoom, StoredRoom, PublicRoom, KeygenRoom};

use keccak::strings::copy;
use kindi::Params;
use vectors::lengths;

// r and r' from the stream of γ.
fn read_secrets(p: Params, stream: &[u8], r: &mut [u16], sums: &mut [u16])
    requires { SecretsRoom p stream.now r.old sums.old }
    ensures { (r.new ≡ vector p.l p.n (small_in p stream.now))
        × (sums.new ≡ vector p.l p.n (λ i. small_in p stream.now (p.l + i))) }
{
    let w = lengths::width(p);
    let at = lengths::length_of(p, p.l, w);
    vectors::small(w, stream, p.p, r);
    vectors::small(w, &stream[at..], p.p, sums);
}

// b modulo 2^16, in sums. The polynomials of A lie in the work area from `at` on, over the stream of γ, which is not read any
// more, or behind it, where it is still wanted: a place beside the area, since two parts of one slice cannot be lent at once. a has
// room for one of them.
fn public_vector(
    p: Params,
    mu: &[u8],
    gamma: &[u8],
    at: usize,
    work: &mut [u8],
    a: &mut [u16],
    r: &mut [u16],
    sums: &mut [u16],
)
    requires { VectorRoom p at work.old a.old r.old sums.old }
    ensures { (sums.new ≡ vector p.l p.n (public p mu.now gamma.now))
        × (take at work.new ≡ take at (shake p.rate gamma.now (secrets_length p))) }
{
    let secrets = lengths::secrets(p);
    let end = at + lengths::polynomial(p);
    hash::shake(p.rate, gamma, &mut work[..secrets]);
    read_secrets(p, &work[..secrets], r, sums);
    matrix::add_product(p, mu, false, r, &mut work[at..end], a, sums);
}

// The sums modulo q without their low t bits, in k − t bits.
fn store(p: Params, t: u32, sums: &mut [u16], dst: &mut [u8])
    requires { StoredRoom p t sums.old dst.old }
    ensures { dst.new ≡ pack (p.k - t) (map (compress t) (low_bits p.k sums.old)) }
{
    bits::reduce(sums, p.k);
    vectors::compress(sums, t);
    packing::pack(p.k - t, sums, dst);
}

// b without its low t bits, in k − t bits: what a key stores, and at t = 0 b in full. The first `at` bytes of the stream of γ
// stay in the work area.
pub fn public_polynomials(
    p: Params,
    t: u32,
    mu: &[u8],
    gamma: &[u8],
    at: usize,
    work: &mut [u8],
    dst: &mut [u8],
)
    requires { PublicRoom p t at work.old dst.old }
    ensures { (dst.new ≡ stored_of p t mu.now gamma.now)
        × (take at work.new ≡ take at (shake p.rate gamma.now (secrets_length p))) }
{
    let n = p.n;
    let vector = p.l * n;
    let mut a = [0u16; 512];
    let mut r = [0u16; 1536];
    let mut sums = [0u16; 1536];
    public_vector(
        p,
        mu,
        gamma,
        at,
        work,
        &mut a[..n],
        &mut r[..vector],
        &mut sums[..vector],
    );
    store(p, t, &mut sums[..vector], dst);
}

// Both keys.
pub fn keygen(
    p: Params,
    mu: &[u8],
    gamma: &[u8],
    z: &[u8],
    pk: &mut [u8],
    sk: &mut [u8],
    work: &mut [u8],
)
    requires { KeygenRoom p mu.now gamma.now z.now pk.old sk.old work.old }
    ensures { (pk.new ≡ public_key p mu.now gamma.now)
        × (sk.new ≡ secret_key p mu.now gamma.now z.now) }
{
    let stored = lengths::stored(p);
    let public = stored + p.seed;
    let end = public + p.seed;
    public_polynomials(p, p.t, mu, gamma, 0, work, &mut pk[..stored]);
    copy(&mut pk[stored..], mu);
    copy(&mut sk[..public], pk);
    copy(&mut sk[public..end], gamma);
    copy(&mut sk[end..], z);
}
