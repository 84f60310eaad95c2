// Vectors of polynomials, one after another in a slice, with coefficients modulo 2^16; the lengths of a set's strings; whether
// two strings are the same.
#![tactic(auto)]

pub mod lengths;
pub mod strings;

ghost use Rattle.std.specs.Prelude.{◌≡◌, map, ◌*◌, ◌%◌, ◌^◌, ◌≤◌, ◌<◌, length};
ghost use Rattle.bits.specs.Bits.{unpack};
ghost use Rattle.ring.specs.Coefficients.{centred_words};
ghost use Rattle.kindi.specs.Keys.{compress};
ghost use Rattle.vectors.specs.Vectors.{raised};

use kindi::Params;
use packing::unpack;
use ring::poly::centre;

pub fn power(i: u32) -> u16
    requires { i < 16 }
    ensures { result ≡ 2 ^ i }
{
    1 << i
}

// Coefficients of w bits, each less c.
pub fn small(w: u32, bytes: &[u8], c: u16, dst: &mut [u16])
    requires { (w ≤ 16) × (w * length dst.old ≤ 8 * length bytes.now) }
    ensures { dst.new ≡ centred_words c (unpack w (length dst.old) bytes.now) }
{
    unpack(w, bytes, dst);
    centre(dst, c);
}

// Each coefficient times 2^t, modulo 2^16.
pub fn raise(xs: &mut [u16], t: u32)
    requires { t < 16 }
    ensures { xs.new ≡ raised t xs.old }
{
    for x in xs.iter_mut() {
        *x <<= t;
    }
}

// Each coefficient without its low t bits.
pub fn compress(xs: &mut [u16], t: u32)
    requires { t < 16 }
    ensures { xs.new ≡ map (compress t) xs.old }
{
    for x in xs.iter_mut() {
        *x >>= t;
    }
}
