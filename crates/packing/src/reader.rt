// The reader of bit strings (01, "Bits and streams"): coefficients of any width up to 16 bits. A cursor is carried forward,
// so that no bit's number is divided and no count is multiplied into a place (02, No. 3).
ghost use Rattle.std.specs.Prelude.{◌≡◌, ◌+◌, ◌*◌, ◌/◌, ◌%◌, ◌^◌, ◌≤◌, ◌<◌, length, get_or};
ghost use Rattle.keccak.specs.Lists.{value, digits};
ghost use Rattle.packing.specs.Apart.{two_apart};
ghost use Rattle.packing.specs.Reading.{cursor_at, bit_of, coefficient_at, Held, Read, InTurn};
ghost use Rattle.packing.specs.Turns.{OneWord, TwoWords, HoldBefore};

use bits::low_bits;

// A byte's place in a string and the bit within it.
#[derive(Clone, Copy)]
pub struct Cursor {
    pub byte: usize,
    pub bit: u32,
}

// A coefficient and the cursor after it.
#[derive(Clone, Copy)]
pub struct Coefficient {
    pub value: u16,
    pub next: Cursor,
}

fn byte_or_zero(s: &[u8], i: usize) -> u8
    ensures { result ≡ get_or s.now i 0 }
{
    s.get(i).copied().unwrap_or(0)
}

// The first 32 bits; those past the end are 0.
fn low_word(s: &[u8]) -> u32
    ensures { result ≡ value 8 s.now % 2 ^ 32 }
{
    // Where all are there they are read at once, which is faster.
    if 4 <= s.len() {
        return u32::from_le_bytes([s[0], s[1], s[2], s[3]]);
    }
    u32::from_le_bytes([
        byte_or_zero(s, 0),
        byte_or_zero(s, 1),
        byte_or_zero(s, 2),
        byte_or_zero(s, 3),
    ])
}

// The first 64 bits.
fn word(s: &[u8]) -> u64
    requires { 8 ≤ length s.now }
    ensures { result ≡ value 8 s.now % 2 ^ 64 }
{
    u64::from_le_bytes([s[0], s[1], s[2], s[3], s[4], s[5], s[6], s[7]])
}

// The first two digits of x in base 2^(2w), at places of 32 bits. A product moves the second, since shifts by a variable cost
// more; its factor is shifted down, since the compiler makes a shift of a product by 1 << n.
fn pairs(x: u64, w: u32) -> u64
    requires { w ≤ 16 }
    ensures { result ≡ x % 2 ^ (2 * w) + x / 2 ^ (2 * w) % 2 ^ (2 * w) * 2 ^ 32 }
{
    let two = 2 * w;
    let mask = (1 << two) - 1;
    (x & mask) + (x & (mask << two)) * ((1 << 32) >> two)
}

// The first two digits of either half of x in base 2^w, at places of 16 bits.
fn singles(x: u64, w: u32) -> u64
    requires { w ≤ 16 }
    ensures { result ≡ two_apart w (x % 2 ^ 32) + two_apart w (x / 2 ^ 32) * 2 ^ 32 }
{
    let masks = ((1 << w) - 1) * 4294967297;
    (x & masks) + (x & (masks << w)) * (65536 >> w)
}

// The first four digits of x in base 2^w, as digits in base 2^16: first pairs of them are moved apart, then the two of each.
fn spread(x: u64, w: u32) -> u64
    requires { w ≤ 16 }
    ensures { result ≡ value 16 (digits w 4 x) }
{
    singles(pairs(x, w), w)
}

fn low_half(x: u64) -> u16
    ensures { result ≡ x % 2 ^ 16 }
{
    (x & 65535) as u16
}

// Writes the first four digits of x in base 2^w.
fn put_four(dst: &mut [u16], x: u64, w: u32)
    requires { (w ≤ 16) × (length dst.old ≡ 4) }
    ensures { dst.new ≡ digits w 4 x }
{
    let z = spread(x, w);
    dst[0] = low_half(z);
    dst[1] = low_half(z >> 16);
    dst[2] = low_half(z >> 32);
    dst[3] = low_half(z >> 48);
}

impl Cursor {
    // The cursor at a string's first bit.
    pub fn start() -> Self
        ensures { result ≡ cursor_at 0 }
    {
        Self { byte: 0, bit: 0 }
    }

    // The cursor that many bits further on.
    fn after(self, bits: u32) -> Self
        requires { (self.bit < 8) × (bits ≤ 64) × (self.byte + (self.bit + bits) / 8 < 2 ^ 64) }
        ensures { result ≡ cursor_at (bit_of self + bits) }
    {
        let sum = self.bit + bits;
        Self {
            byte: self.byte + (sum >> 3) as usize,
            bit: sum & 7,
        }
    }

    // Reads one coefficient.
    pub fn one(self, w: u32, src: &[u8]) -> Coefficient
        requires { Held w 1 self (length src.now) }
        ensures { result ≡ coefficient_at w src.now self }
    {
        let word = low_word(&src[self.byte..]);
        Coefficient {
            value: low_bits(word >> self.bit, w),
            next: self.after(w),
        }
    }

    // Reads four coefficients from one word.
    fn four(self, w: u32, src: &[u8], dst: &mut [u16]) -> Self
        requires { (OneWord w self (length src.now)) × (length dst.old ≡ 4) }
        ensures { InTurn w 4 src.now self result dst.new }
    {
        put_four(dst, word(&src[self.byte..]) >> self.bit, w);
        self.after(4 * w)
    }

    // Reads eight coefficients, four and four. They fill w bytes, so the bit within a byte is the same after them.
    fn eight(self, w: u32, src: &[u8], dst: &mut [u16]) -> Self
        requires { (TwoWords w self (length src.now)) × (length dst.old ≡ 8) }
        ensures { InTurn w 8 src.now self result dst.new }
    {
        let second = self.four(w, src, &mut dst[..4]);
        second.four(w, src, &mut dst[4..]);
        Self {
            byte: self.byte + w as usize,
            ..self
        }
    }

    // A byte before which eight coefficients at this bit lie in two words of a string of len bytes.
    fn end(self, w: u32, len: usize) -> usize
        requires { (w ≤ 16) × (self.bit < 8) }
        ensures { HoldBefore w self.bit len result }
    {
        let first = Self { byte: 0, ..self };
        let second = first.after(4 * w);
        if 64 < first.bit + 4 * w || 64 < second.bit + 4 * w {
            return 0;
        }
        len.saturating_sub(second.byte + 7)
    }

    // Reads one coefficient a turn.
    fn each(self, w: u32, src: &[u8], dst: &mut [u16]) -> Self
        requires { Held w (length dst.old) self (length src.now) }
        ensures { Read w (length dst.old) src.now self result dst.new }
    {
        let mut c = self;
        for value in dst.iter_mut() {
            let one = c.one(w, src);
            *value = one.value;
            c = one.next;
        }
        c
    }

    // Reads as many coefficients as dst has, from any bit of a string on: eight a turn, as long as two words hold them, and then
    // one by one.
    pub fn read(self, w: u32, src: &[u8], dst: &mut [u16]) -> Self
        requires { Held w (length dst.old) self (length src.now) }
        ensures { Read w (length dst.old) src.now self result dst.new }
    {
        let end = self.end(w, src.len());
        let mut c = self;
        // No `for`: it would not hand its place on to `each`.
        let mut i = 0;
        while 8 <= dst.len() - i && c.byte < end {
            c = c.eight(w, src, &mut dst[i..i + 8]);
            i += 8;
        }
        c.each(w, src, &mut dst[i..])
    }
}
