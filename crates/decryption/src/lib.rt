// Decryption over any well-formed parameters, on slices of the right lengths, up to its outcome (01: opening).
#![tactic(auto)]

mod recover;
mod remainders;

ghost use Rattle.std.specs.Prelude.{◌≡◌};
ghost use Rattle.kindi.specs.Keys.{secret_seed};
ghost use Rattle.kindi.specs.Decrypt.{rounded_coins};
ghost use Rattle.decryption.specs.Opened.{SumsExit, OpenRoom, OpenExit};
ghost use Rattle.decryption.specs.Inputs.{SumsRoom};

use kindi::Params;
use vectors::lengths;

// The stream of the coins into the work area, and in the sums a ciphertext of these coins without its errors, less the ciphertext.
// The polynomials of A lie behind the mask, which stays.
fn sums_less_cipher(
    p: Params,
    pk: &[u8],
    ct: &[u8],
    coins: &[u8],
    work: &mut [u8],
    s: &mut [u16],
    sums: &mut [u16],
)
    requires { SumsRoom p pk.now ct.now coins.now work.old s.old sums.old }
    ensures { SumsExit p pk.now ct.now coins.now work.new sums.new }
{
    let stream = lengths::coins_stream(p);
    let end = lengths::mask(p).end;
    hash::shake(p.rate, coins, &mut work[..stream]);
    packing::unpack(p.k, ct, sums);
    ring::poly::subtract_from(0, sums);
    encryption::add_noiseless(p, pk, coins, end, work, s, sums);
}

// The recovered coins of a secret key and a ciphertext. It stands apart from `open`, and both have two callers, so that
// the compiler keeps them apart and their arrays do not lie on the stack together.
pub fn recover_coins(p: Params, sk: &[u8], ct: &[u8], coins: &mut [u8], work: &mut [u8])
    requires { OpenRoom p sk.now ct.now coins.old work.old }
    ensures { coins.new ≡ rounded_coins p (secret_seed p sk.now) ct.now }
{
    let public = lengths::stored(p) + p.seed;
    let end = public + p.seed;
    recover::recover_coins(p, &sk[public..end], ct, coins, work);
}

// Leaves the padded message that a ciphertext has with these coins in the mask's place of the work area, and answers
// whether every error fits: no Result, on which a caller would branch before the outcome is decided.
pub fn open(p: Params, sk: &[u8], ct: &[u8], coins: &[u8], work: &mut [u8]) -> bool
    requires { OpenRoom p sk.now ct.now coins.now work.old }
    ensures { OpenExit p sk.now ct.now coins.now result work.new }
{
    let public = lengths::stored(p) + p.seed;
    let vector = p.l * p.n;
    let all = encryption::coefficients(p);
    let mut s = [0u16; 1536];
    let mut sums = [0u16; 2048];
    sums_less_cipher(
        p,
        &sk[..public],
        ct,
        coins,
        work,
        &mut s[..vector],
        &mut sums[..all],
    );
    remainders::unmask(p, &mut sums[..all], work)
}
