// Calls of the ring layer for C hosts: its tests and its benchmark. They are no part of the library. C wants a number, so a call
// that refuses returns 1, and else 0.
#![tactic(auto)]

ghost use Rattle.std.specs.Prelude.{◌≡◌, cond, ◌*◌, ◌≤◌, length, take};
ghost use Rattle.bits.specs.Bits.{bytes_for, pack, unpack, low_bits};
ghost use Rattle.ring.specs.Coefficients.{Factors, with_product};
ghost use Rattle.ring.specs.Integers.{largest, all_between};
ghost use Rattle.ring_calls.specs.Outcome.{Outcome};
ghost use Rattle.ring_calls.specs.From.{UnpackedFrom};
ghost use Rattle.ring_calls.specs.Signed.{centred_string, Small, signed_product};

use packing::reader::Cursor;

// acc + a·b modulo X^n + 1 and 2^16.
#[unsafe(no_mangle)]
pub extern "C" fn ring_multiply_add(acc: &mut [u16], a: &[u16], b: &[u16]) -> u32
    ensures { Outcome (Factors acc.old a.now b.now)
        result acc.new acc.old (with_product acc.old a.now b.now) }
{
    let n = acc.len();
    if a.len() != n || b.len() != n || n % 4 != 0 || 512 < n {
        return 1;
    }
    ring::poly::multiply_add(acc, a, b);
    0
}

// The bits of n coefficients.
fn bit_count(w: u32, n: usize) -> usize
    requires { (w ≤ 16) × (n ≤ 65536) }
    ensures { (result ≡ w * n) × (result ≤ 1048576) }
{
    w as usize * n
}

// The low w bits of each coefficient, packed.
#[unsafe(no_mangle)]
pub extern "C" fn ring_pack(w: u32, src: &[u16], dst: &mut [u8]) -> u32
    ensures { Outcome
        ((w ≤ 16) × (length src.now ≤ 65536) × (length dst.old ≡ bytes_for (w * length src.now)))
        result dst.new dst.old (pack w (low_bits w src.now)) }
{
    if 16 < w || 65536 < src.len() || dst.len() != bit_count(w, src.len()).div_ceil(8) {
        return 1;
    }
    packing::pack(w, src, dst);
    0
}

// The first coefficients of w bits.
#[unsafe(no_mangle)]
pub extern "C" fn ring_unpack(w: u32, src: &[u8], dst: &mut [u16]) -> u32
    ensures { Outcome
        ((w ≤ 16) × (length dst.old ≤ 65536) × (bytes_for (w * length dst.old) ≤ length src.now))
        result dst.new dst.old (unpack w (length dst.old) src.now) }
{
    if 16 < w || 65536 < dst.len() || src.len() < bit_count(w, dst.len()).div_ceil(8) {
        return 1;
    }
    packing::unpack(w, src, dst);
    0
}

// The coefficients of w bits from a bit of a byte on, and the byte and the bit after them.
#[unsafe(no_mangle)]
pub extern "C" fn ring_unpack_from(
    w: u32,
    byte: usize,
    bit: u32,
    src: &[u8],
    dst: &mut [u16],
    next_byte: &mut usize,
    next_bit: &mut u32,
) -> u32
    ensures { UnpackedFrom w byte bit src.now result dst.old dst.new
        next_byte.old next_byte.new next_bit.old next_bit.new }
{
    if 16 < w || 7 < bit || 65536 < dst.len() || src.len() < byte {
        return 1;
    }
    if src.len() - byte < (bit as usize + bit_count(w, dst.len())).div_ceil(8) {
        return 1;
    }
    let next = Cursor { byte, bit }.read(w, src, dst);
    *next_byte = next.byte;
    *next_bit = next.bit;
    0
}

// The values of a string, each less p; values has room for them.
fn centre(w: u32, p: u16, bytes: &[u8], values: &mut [u16], xs: &mut [i16])
    requires { (w ≤ 10) × (p ≤ 1024) × (length values.old ≡ length xs.old) × (bytes_for (w * length xs.old) ≤ length bytes.now) }
    ensures { xs.new ≡ centred_string w p (length xs.old) bytes.now }
{
    packing::unpack(w, bytes, values);
    signed::centre(values, p, xs);
}

// The product of two strings of values of w bits, each less p, over the integers modulo X^n + 1.
#[unsafe(no_mangle)]
pub extern "C" fn ring_signed_product(
    w: u32,
    p: u16,
    a: &[u8],
    b: &[u8],
    product: &mut [i32],
) -> u32
    ensures { Outcome (Small w p (length product.old) a.now b.now)
        result product.new product.old
        (signed_product w p (length product.old) a.now b.now) }
{
    let n = product.len();
    if 512 < n || 10 < w || 1024 < p {
        return 1;
    }
    let bytes = bit_count(w, n).div_ceil(8);
    if a.len() < bytes || b.len() < bytes {
        return 1;
    }
    let mut values = [0; 512];
    let mut xs = [0; 512];
    let mut ys = [0; 512];
    let (values, xs, ys) = (&mut values[..n], &mut xs[..n], &mut ys[..n]);
    centre(w, p, a, values, xs);
    centre(w, p, b, values, ys);
    product.fill(0);
    signed::multiply_add(product, xs, ys);
    0
}

// The largest absolute value, and 1 where all lie strictly between low and high, else 0.
#[unsafe(no_mangle)]
pub extern "C" fn ring_sizes(xs: &[i32], low: i32, high: i32, most: &mut u32) -> u32
    ensures { (result ≡ cond (all_between low high xs.now) 1 0) × (most.new ≡ largest xs.now) }
{
    *most = signed::largest(xs);
    u32::from(signed::all_between(xs, low, high))
}
