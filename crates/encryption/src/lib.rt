// Encryption over any well-formed parameters, on slices of the right lengths (01: sealing).
#![tactic(auto)]

ghost use Rattle.std.specs.Prelude.{◌≡◌, ◌+◌, ◌*◌, ◌≤◌, length};
ghost use Rattle.kindi.specs.Params.{WellFormed};
ghost use Rattle.kindi.specs.Encrypt.{ciphertext};
ghost use Rattle.encryption.specs.Inputs.{NoiselessRoom, ErrorsRoom, EncryptRoom};
ghost use Rattle.encryption.specs.Errors.{ErrorsExit};
ghost use Rattle.encryption.specs.Noiseless.{NoiselessExit};

use kindi::Params;
use vectors::lengths;

// How many coefficients a ciphertext has: those of C_1 to C_ℓ, and of D.
pub fn coefficients(p: Params) -> usize
    requires { WellFormed p }
    ensures { (result ≡ (p.l + 1) * p.n) × (result ≤ 2048) }
{
    (p.l + 1) * p.n
}

// Adds to each of ℓ + 1 sums its polynomial of a ciphertext without its errors. The work area begins with the stream of the
// coins, whatever lies in the mask's place; the polynomials of A lie in it from `at` on, a place beside
// the area, since two parts of one slice cannot be lent at once.
pub fn add_noiseless(
    p: Params,
    pk: &[u8],
    coins: &[u8],
    at: usize,
    work: &mut [u8],
    s: &mut [u16],
    sums: &mut [u16],
)
    requires { NoiselessRoom p pk.now coins.now at work.old s.old sums.old }
    ensures { NoiselessExit p pk.now coins.now at work.old sums.old
        work.new sums.new }
{
    let n = p.n;
    let vector = p.l * n;
    let stream = lengths::coins_stream(p);
    let seed = lengths::stored(p);
    let end = at + lengths::polynomial(p);
    let mut f = [0u16; 512];
    let mut w = [0u16; 512];
    let f = &mut f[..n];
    let w = &mut w[..n];
    cipher_terms::add_public(p, pk, coins, &work[..stream], f, w, s, &mut sums[vector..]);
    matrix::add_product(
        p,
        &pk[seed..],
        true,
        s,
        &mut work[at..end],
        f,
        &mut sums[..vector],
    );
}

// The errors, from the message masked in the stream of the coins; the work area begins with that stream then.
fn read_errors(p: Params, coins: &[u8], message: &[u8], errors: &mut [u16], work: &mut [u8])
    requires { ErrorsRoom p message.now errors.old work.old }
    ensures { ErrorsExit p coins.now message.now errors.new work.new }
{
    let stream = lengths::coins_stream(p);
    cipher_terms::masked_stream(p, coins, message, &mut work[..stream]);
    vectors::small(lengths::width(p), &work[lengths::mask(p)], p.p, errors);
}

// The ciphertext. The errors are read first, so the polynomials of A may lie over the stream.
pub fn encrypt(p: Params, pk: &[u8], coins: &[u8], message: &[u8], dst: &mut [u8], work: &mut [u8])
    requires { EncryptRoom p pk.now coins.now message.now dst.old work.old }
    ensures { dst.new ≡ ciphertext p pk.now coins.now message.now }
{
    let vector = p.l * p.n;
    let all = coefficients(p);
    let mut s = [0u16; 1536];
    let mut sums = [0u16; 2048];
    let s = &mut s[..vector];
    let sums = &mut sums[..all];
    read_errors(p, coins, message, sums, work);
    add_noiseless(p, pk, coins, 0, work, s, sums);
    packing::pack(p.k, sums, dst);
}
