// Bit strings (01, "Bits and streams"): coefficients of any width up to 16 bits in bytes.
#![tactic(auto)]

pub mod reader;

ghost use Rattle.std.specs.Prelude.{◌≡◌, ◌+◌, ◌*◌, ◌/◌, ◌%◌, ◌^◌, ◌≤◌, ◌<◌, min, length, take};
ghost use Rattle.keccak.specs.Lists.{value, digits};
ghost use Rattle.bits.specs.Bits.{bytes_for, pack, unpack, low_bits};

use bits::low_bits;
use reader::Cursor;

pub fn unpack(w: u32, src: &[u8], dst: &mut [u16])
    requires { (w ≤ 16) × (w * length dst.old ≤ 8 * length src.now) }
    ensures { dst.new ≡ unpack w (length dst.old) src.now }
{
    Cursor::start().read(w, src, dst);
}

// Writes the low bytes of v, as far as there is room.
#[tactic(auto, using(bits::proofs::Filling::filling_begun, bits::proofs::Filling::filling_all))]
fn put(dst: &mut [u8], v: u32)
    ensures { take 4 dst.new ≡ digits 8 (min 4 (length dst.old)) v }
{
    if 4 <= dst.len() {
        dst[..4].copy_from_slice(&v.to_le_bytes());
        return;
    }
    // By shifts: a loop that reads the bytes of v becomes a copy at a length that varies, a call that takes longer than they do.
    for (i, byte) in dst.iter_mut().enumerate() {
        *byte = ((v >> (8 * i)) % 256) as u8;
    }
}

// The pending bits with the w low bits of c above them.
fn join_bits(pending: u32, count: u32, c: u16, w: u32) -> u32
    requires { (w ≤ 16) × (count < 8) × (pending < 2 ^ count) }
    ensures { (result ≡ pending + 2 ^ count * (c % 2 ^ w)) × (result < 2 ^ (count + w)) }
{
    pending + (u32::from(low_bits(u32::from(c), w)) << count)
}

// One coefficient a turn.
#[tactic(auto, using(crate::proofs::Packing::packed_room))]
fn pack_each(w: u32, src: &[u16], dst: &mut [u8])
    requires { (w ≤ 16) × (length dst.old ≡ bytes_for (w * length src.now)) }
    ensures { dst.new ≡ pack w (low_bits w src.now) }
{
    let mut pending = 0;
    let mut count = 0;
    // By a place in dst: a turn fills 0 to 2 bytes.
    let mut k = 0;
    for c in src {
        let bits = join_bits(pending, count, *c, w);
        put(&mut dst[k..], bits);
        let whole = (count + w) / 8;
        pending = bits >> (8 * whole);
        count = (count + w) % 8;
        k += whole as usize;
    }
}

// The w low bits of c, with a number above them; the factor 2^w is made as in `pairs`.
fn below(c: u16, w: u32, high: u64) -> u64
    requires { (w ≤ 16) × (high < 2 ^ 48) }
    ensures { (result ≡ c % 2 ^ w + 2 ^ w * high) × (result < 65536 * (high + 1)) }
{
    u64::from(low_bits(u32::from(c), w)) + (65536 >> (16 - w)) * high
}

// The number of four coefficients.
fn four(src: &[u16], w: u32) -> u64
    requires { (w ≤ 16) × (length src.now ≡ 4) }
    ensures { result ≡ value w (low_bits w src.now) }
{
    below(
        src[0],
        w,
        below(src[1], w, below(src[2], w, below(src[3], w, 0))),
    )
}

// The number of eight coefficients without its first w / 2 bytes.
fn upper(low: u64, high: u64, w: u32) -> u64
    requires { (w ≤ 16) × (low < 2 ^ (4 * w)) × (high < 2 ^ (4 * w)) }
    ensures { result ≡ (low + 2 ^ (4 * w) * high) / 2 ^ (8 * (w / 2)) }
{
    let half = 4 * (w / 2);
    (high << (4 * (w % 2))) + (low >> half >> half)
}

// Eight coefficients in w bytes; what is written past them is not kept.
fn pack_eight(w: u32, src: &[u16; 8], dst: &mut [u8])
    requires { (w ≤ 16) × (w / 2 + 8 ≤ length dst.old) }
    ensures { take w dst.new ≡ pack w (low_bits w src.now) }
{
    let half = (w / 2) as usize;
    let (first, second) = src.split_at(4);
    let low = four(first, w);
    let high = four(second, w);
    dst[..8].copy_from_slice(&low.to_le_bytes());
    dst[half..half + 8].copy_from_slice(&upper(low, high, w).to_le_bytes());
}

// Eight coefficients a turn, as long as there is room for whole words, and then one by one.
#[tactic(auto, using(crate::proofs::Packing::eights_room))]
pub fn pack(w: u32, src: &[u16], dst: &mut [u8])
    requires { (w ≤ 16) × (length dst.old ≡ bytes_for (w * length src.now)) }
    ensures { dst.new ≡ pack w (low_bits w src.now) }
{
    let mut rest = src;
    // By a place in dst: a turn writes past its w bytes, and where no room is left for that `pack_each` goes on.
    let mut k = 0;
    while let Some((eight, after)) = rest.split_first_chunk() {
        if dst.len() - k < (w / 2) as usize + 8 {
            break;
        }
        pack_eight(w, eight, &mut dst[k..]);
        rest = after;
        k += w as usize;
    }
    pack_each(w, rest, &mut dst[k..]);
}
