// The terms of a ciphertext (01: sealing) that do not come from A: P, s, what both give D, and the masked message.
#![tactic(auto)]

ghost use Rattle.std.specs.Prelude.{◌≡◌, cond, [], ◌∷◌, ◌++◌, ◌≤◌, ◌<◌, eqb, length};
ghost use Rattle.keccak.specs.Lists.{patched};
ghost use Rattle.keccak.specs.Strings.{xor_into};
ghost use Rattle.ring.specs.Poly.{residues};
ghost use Rattle.kindi.specs.Params.{WellFormed, half, length_of, high_width, low_length, padded_length, coins_stream_length};
ghost use Rattle.kindi.specs.Streams.{low_in, first_in, ephemeral_by, coins_stream};
ghost use Rattle.kindi.specs.Encrypt.{masked, decompressed_by};
ghost use Rattle.vectors.specs.Vectors.{vector, with_constant};
ghost use Rattle.cipher_terms.specs.Inputs.{DecompressRoom, EphemeralRoom, ProductsRoom, TermsRoom};
ghost use Rattle.cipher_terms.specs.Terms.{with_products, TermsExit};

use kindi::Params;
use vectors::lengths;

// Adds c to the first coefficient.
fn add_constant(f: &mut [u16], c: u16)
    requires { 0 < length f.old }
    ensures { f.new ≡ with_constant c f.old }
{
    f[0] = f[0].wrapping_add(c);
}

// g for the first polynomial of P, 0 for the others.
fn constant(p: Params, i: usize) -> u16
    requires { WellFormed p }
    ensures { result ≡ cond (eqb i 0) (half p) 0 }
{
    bits::select(i == 0, vectors::power(p.k - 1), 0)
}

// P_i: 2^t times stored polynomial i, plus w_i, and g at the constant of the first; w has room for w_i.
fn decompress(p: Params, pk: &[u8], low: &[u8], i: usize, w: &mut [u16], f: &mut [u16])
    requires { DecompressRoom p pk.now low.now i w.old f.old }
    ensures { f.new ≡ residues 65536 p.n (decompressed_by p pk.now (low_in p low.now) i) }
{
    let from = lengths::length_of(p, i, p.k - p.t);
    let at = lengths::length_of(p, i, p.t);
    packing::unpack(p.k - p.t, &pk[from..], f);
    vectors::raise(f, p.t);
    vectors::small(p.t, &low[at..], vectors::power(p.t - 1), w);
    ring::poly::add(f, w);
    add_constant(f, constant(p, i));
}

// s_1: a bit of the coins plus twice h, less p; h has room for the high part.
fn first(p: Params, coins: &[u8], high: &[u8], h: &mut [u16], dst: &mut [u16])
    requires { (WellFormed p) × (length coins.now ≡ p.coins) × (length_of p 1 (high_width p) ≤ length high.now) × (length h.old ≡ p.n) × (length dst.old ≡ p.n) }
    ensures { dst.new ≡ residues 65536 p.n (first_in p coins.now high.now) }
{
    packing::unpack(1, coins, dst);
    packing::unpack(lengths::width(p) - 1, high, h);
    vectors::raise(h, 1);
    ring::poly::add(dst, h);
    ring::poly::centre(dst, p.p);
}

// s_1, then s_2 to s_ℓ; h has room for the high part.
fn ephemeral(p: Params, coins: &[u8], high: &[u8], rest: &[u8], h: &mut [u16], s: &mut [u16])
    requires { EphemeralRoom p coins.now high.now rest.now h.old s.old }
    ensures { s.new ≡ vector p.l p.n (ephemeral_by p coins.now high.now rest.now) }
{
    let n = p.n;
    first(p, coins, high, h, &mut s[..n]);
    vectors::small(lengths::width(p), rest, p.p, &mut s[n..]);
}

// Adds the padded message to the mask, modulo 2.
pub fn add_padded(message: &[u8], dst: &mut [u8])
    requires { length message.now < length dst.old }
    ensures { dst.new ≡ xor_into dst.old (message.now ++ (1 ∷ [])) }
{
    let end = message.len();
    keccak::strings::xor_into(dst, message);
    dst[end] ^= 1;
}

// The stream of the coins, in which the message is masked.
pub fn masked_stream(p: Params, coins: &[u8], message: &[u8], stream: &mut [u8])
    requires { (WellFormed p) × (length message.now < padded_length p) × (length stream.old ≡ coins_stream_length p) }
    ensures { stream.new ≡ patched (low_length p) (padded_length p) (masked p coins.now message.now) (coins_stream p coins.now) }
{
    hash::shake(p.rate, coins, stream);
    add_padded(message, &mut stream[lengths::mask(p)]);
}

// Adds the sum of P_i·s_i to d, polynomial by polynomial; f and w have room for one.
fn add_products(
    p: Params,
    pk: &[u8],
    low: &[u8],
    s: &[u16],
    f: &mut [u16],
    w: &mut [u16],
    d: &mut [u16],
)
    requires { ProductsRoom p pk.now low.now s.now f.old w.old d.old }
    ensures { d.new ≡ with_products p pk.now low.now s.now p.l d.old }
{
    let n = p.n;
    for i in 0..p.l {
        let at = i * n;
        decompress(p, pk, low, i, w, f);
        product::multiply_add(d, f, &s[at..at + n]);
    }
}

// s, and the sum of P_i·s_i added to d, from a string that has the stream of the coins, whatever lies in the mask's place; f and
// w have room for a polynomial.
pub fn add_public(
    p: Params,
    pk: &[u8],
    coins: &[u8],
    stream: &[u8],
    f: &mut [u16],
    w: &mut [u16],
    s: &mut [u16],
    d: &mut [u16],
)
    requires { TermsRoom p pk.now coins.now stream.now f.old w.old s.old d.old }
    ensures { TermsExit p pk.now coins.now d.old s.new d.new }
{
    let end = lengths::mask(p).end;
    let rest = end + lengths::high(p);
    ephemeral(p, coins, &stream[end..], &stream[rest..], w, s);
    add_products(p, pk, stream, s, f, w, d);
}
