// Bit strings (01, "Bits and streams"): the width of coefficients, their low bits, and two bytes a coefficient.
#![tactic(auto)]

ghost use Rattle.std.specs.Prelude.{◌≡◌, cond, ◌*◌, ◌%◌, ◌^◌, ◌≤◌, length};
ghost use Rattle.std.specs.Int.Count.{count_trailing_zeros};
ghost use Rattle.bits.specs.Bits.{pack, unpack, low_bits};

// The width in bits of the values below m, a power of two.
pub fn width(m: u32) -> u32
    ensures { result ≡ count_trailing_zeros 32 m }
{
    u32::trailing_zeros(m)
}

// c modulo 2^w.
pub fn low_bits(c: u32, w: u32) -> u16
    requires { w ≤ 16 }
    ensures { result ≡ c % 2 ^ w }
{
    (c & ((1 << w) - 1)) as u16
}

// One of two values.
pub fn select<T: Copy>(first: bool, a: T, b: T) -> T
    ensures { result ≡ cond first a b }
{
    if first { a } else { b }
}

// Each coefficient modulo 2^w.
pub fn reduce(xs: &mut [u16], w: u32)
    requires { w ≤ 16 }
    ensures { xs.new ≡ low_bits w xs.old }
{
    for x in xs.iter_mut() {
        *x = low_bits(u32::from(*x), w);
    }
}

// Loads coefficients that are stored in two bytes each.
pub fn load(src: &[u8], dst: &mut [u16])
    requires { length src.now ≡ 2 * length dst.old }
    ensures { dst.new ≡ unpack 16 (length dst.old) src.now }
{
    // By place: a proof does not know what was written through `iter_mut().zip(..)`.
    for (i, c) in dst.iter_mut().enumerate() {
        *c = u16::from_le_bytes([src[2 * i], src[2 * i + 1]]);
    }
}

// Stores each coefficient in two bytes.
pub fn store(src: &[u16], dst: &mut [u8])
    requires { length dst.old ≡ 2 * length src.now }
    ensures { dst.new ≡ pack 16 src.now }
{
    // By place: a proof does not know what was written through `chunks_exact_mut`.
    for (i, c) in src.iter().enumerate() {
        dst[2 * i..2 * i + 2].copy_from_slice(&c.to_le_bytes());
    }
}
