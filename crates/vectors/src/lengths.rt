// The lengths that follow from a set's parameters, in bytes.
ghost use Rattle.std.specs.Prelude.{◌≡◌, ◌+◌, ◌-◌, ◌≤◌};
ghost use Rattle.kindi.specs.Params.{WellFormed, width, length_of, stored_length, padded_length, ciphertext_length, polynomial_length, secrets_length, low_length, high_length, rest_length, coins_stream_length};

use kindi::Params;
use std::ops::Range;

// The width in bits of a small coefficient.
pub fn width(p: Params) -> u32
    requires { WellFormed p }
    ensures { result ≡ width p }
{
    bits::width(2 * u32::from(p.p))
}

// The bytes of m polynomials of w bits a coefficient.
pub fn length_of(p: Params, m: usize, w: u32) -> usize
    requires { (WellFormed p) × (m ≤ 64) × (w ≤ 16) }
    ensures { (result ≡ length_of p m w) × (result ≤ 65536) }
{
    m * (p.n / 8 * (w as usize))
}

pub fn stored(p: Params) -> usize
    requires { WellFormed p }
    ensures { (result ≡ stored_length p) × (result ≤ 65536) }
{
    length_of(p, p.l, p.k - p.t)
}

pub fn ciphertext(p: Params) -> usize
    requires { WellFormed p }
    ensures { (result ≡ ciphertext_length p) × (result ≤ 65536) }
{
    length_of(p, p.l + 1, p.k)
}

pub fn padded(p: Params) -> usize
    requires { WellFormed p }
    ensures { (result ≡ padded_length p) × (result ≤ 65536) }
{
    length_of(p, p.l + 1, width(p))
}

// One polynomial of A.
pub fn polynomial(p: Params) -> usize
    requires { WellFormed p }
    ensures { (result ≡ polynomial_length p) × (result ≤ 65536) }
{
    length_of(p, 1, p.k)
}

pub fn secrets(p: Params) -> usize
    requires { WellFormed p }
    ensures { (result ≡ secrets_length p) × (result ≤ 65536) }
{
    length_of(p, 2 * p.l, width(p))
}

pub fn low(p: Params) -> usize
    requires { WellFormed p }
    ensures { (result ≡ low_length p) × (result ≤ 65536) }
{
    length_of(p, p.l, p.t)
}

pub fn high(p: Params) -> usize
    requires { WellFormed p }
    ensures { (result ≡ high_length p) × (result ≤ 65536) }
{
    length_of(p, 1, width(p) - 1)
}

pub fn rest(p: Params) -> usize
    requires { WellFormed p }
    ensures { (result ≡ rest_length p) × (result ≤ 65536) }
{
    length_of(p, p.l - 1, width(p))
}

// The stream from the coins.
pub fn coins_stream(p: Params) -> usize
    requires { WellFormed p }
    ensures { (result ≡ coins_stream_length p) × (result ≤ 262144) }
{
    low(p) + (padded(p) + (high(p) + rest(p)))
}

// The mask's place in the stream from the coins.
pub fn mask(p: Params) -> Range<usize>
    requires { WellFormed p }
    ensures { (result.start ≡ low_length p) × (result.end ≡ low_length p + padded_length p) × (result.end ≤ 131072) }
{
    let at = low(p);
    at..at + padded(p)
}
