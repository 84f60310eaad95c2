// Strings of bytes: the state of a string and the string of a state (FIPS 202, 3.1), and the
// loops by which bytes are added and copied. What is written is indexed, since a proof does not
// know what was written through `chunks_exact_mut` or `iter_mut().zip(..)`.
ghost use Rattle.std.specs.Prelude.{◌≡◌, ◌+◌, ◌*◌, ◌≤◌, length};
ghost use Rattle.keccak.specs.Lists.{digits};
ghost use Rattle.keccak.specs.Keccak.{five};
ghost use Rattle.keccak.specs.Strings.{lane_at, to_state, row_string, from_state, xor_into};

// The lane of the eight bytes from i on.
fn load(s: &[u8], i: usize) -> u64
    requires { i + 8 ≤ length s.now }
    ensures { result ≡ lane_at s.now i }
{
    let mut bytes = [0u8; 8];
    bytes.copy_from_slice(&s[i..i + 8]);
    u64::from_le_bytes(bytes)
}

// The five lanes from byte i on.
fn load_row(s: &[u8], i: usize) -> [u64; 5]
    requires { i + 40 ≤ length s.now }
    ensures { result ≡ five (λ x. lane_at s.now (i + 8 * x)) }
{
    [
        load(s, i),
        load(s, i + 8),
        load(s, i + 16),
        load(s, i + 24),
        load(s, i + 32),
    ]
}

pub fn to_state(s: &[u8]) -> [[u64; 5]; 5]
    requires { length s.now ≡ 200 }
    ensures { result ≡ to_state s.now }
{
    [
        load_row(s, 0),
        load_row(s, 40),
        load_row(s, 80),
        load_row(s, 120),
        load_row(s, 160),
    ]
}

// Writes the eight bytes of a lane.
pub fn store(dst: &mut [u8], v: u64)
    requires { length dst.old ≡ 8 }
    ensures { dst.new ≡ digits 8 8 v }
{
    dst.copy_from_slice(&v.to_le_bytes());
}

// Writes the forty bytes of a row.
fn store_row(dst: &mut [u8], p: [u64; 5])
    requires { length dst.old ≡ 40 }
    ensures { dst.new ≡ row_string p }
{
    for (x, lane) in p.iter().enumerate() {
        store(&mut dst[8 * x..8 * x + 8], *lane);
    }
}

pub fn from_state(a: [[u64; 5]; 5]) -> [u8; 200]
    ensures { result ≡ from_state a }
{
    let mut s = [0u8; 200];
    for (y, row) in a.iter().enumerate() {
        store_row(&mut s[40 * y..40 * y + 40], *row);
    }
    s
}

// Adds src to the first bytes of dst, modulo 2.
pub fn xor_into(dst: &mut [u8], src: &[u8])
    requires { length src.now ≤ length dst.old }
    ensures { dst.new ≡ xor_into dst.old src.now }
{
    for (i, b) in src.iter().enumerate() {
        dst[i] ^= *b;
    }
}

// Copies src. It goes byte by byte, which compiles to memcpy: between two lent slices `copy_from_slice` is memmove, which the
// archive asks of no C library.
pub fn copy(dst: &mut [u8], src: &[u8])
    requires { length dst.old ≡ length src.now }
    ensures { dst.new ≡ src.now }
{
    for (i, b) in src.iter().enumerate() {
        dst[i] = *b;
    }
}
