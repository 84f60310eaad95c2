// Keccak-f[1600]. The state is five rows of five lanes, passed and returned by value through the
// steps of a round. Each step has one caller, so that the compiler joins them into one body.
ghost use Rattle.std.specs.Prelude.{◌≡◌, ◌<◌, get_or};
ghost use Rattle.keccak.specs.Bounds.{Offsets, OffsetTable};
ghost use Rattle.keccak.specs.Lists.{tabulate};
ghost use Rattle.keccak.specs.Keccak.{five, xor_row, effect, chi_row, round_constant, rotl, theta, rho, pi, chi, iota, round, keccak_f};

// The offsets of rho: row y, lane x.
const OFFSETS: [[u32; 5]; 5] = [
    [0, 1, 62, 28, 27],
    [36, 44, 6, 55, 20],
    [3, 10, 43, 25, 39],
    [41, 45, 15, 21, 8],
    [18, 2, 61, 56, 14],
];

// The constants of iota, one a round.
const ROUND_CONSTANTS: [u64; 24] = [
    0x0000000000000001,
    0x0000000000008082,
    0x800000000000808a,
    0x8000000080008000,
    0x000000000000808b,
    0x0000000080000001,
    0x8000000080008081,
    0x8000000000008009,
    0x000000000000008a,
    0x0000000000000088,
    0x0000000080008009,
    0x000000008000000a,
    0x000000008000808b,
    0x800000000000008b,
    0x8000000000008089,
    0x8000000000008003,
    0x8000000000008002,
    0x8000000000000080,
    0x000000000000800a,
    0x800000008000000a,
    0x8000000080008081,
    0x8000000000008080,
    0x0000000080000001,
    0x8000000080008008,
];

// The offsets are those of the walk of rho.
fn rho_offsets() -> [[u32; 5]; 5]
    ensures { OffsetTable result }
{
    OFFSETS
}

// The constants are those of the register of iota.
fn iota_constants() -> [u64; 24]
    ensures { result ≡ tabulate 24 round_constant }
{
    ROUND_CONSTANTS
}

// A lane turned up by n places.
fn rotl(v: u64, n: u32) -> u64
    requires { n < 64 }
    ensures { result ≡ rotl n v }
{
    v.rotate_left(n)
}

fn xor_row(p: [u64; 5], q: [u64; 5]) -> [u64; 5]
    ensures { result ≡ xor_row p q }
{
    [
        p[0] ^ q[0],
        p[1] ^ q[1],
        p[2] ^ q[2],
        p[3] ^ q[3],
        p[4] ^ q[4],
    ]
}

// What theta adds to each row, from the parities of the columns.
fn effects(c: [u64; 5]) -> [u64; 5]
    ensures { result ≡ five (effect c) }
{
    [
        c[4] ^ rotl(c[1], 1),
        c[0] ^ rotl(c[2], 1),
        c[1] ^ rotl(c[3], 1),
        c[2] ^ rotl(c[4], 1),
        c[3] ^ rotl(c[0], 1),
    ]
}

fn theta(a: [[u64; 5]; 5]) -> [[u64; 5]; 5]
    ensures { result ≡ theta a }
{
    let c = xor_row(xor_row(xor_row(xor_row(a[0], a[1]), a[2]), a[3]), a[4]);
    let d = effects(c);
    [
        xor_row(a[0], d),
        xor_row(a[1], d),
        xor_row(a[2], d),
        xor_row(a[3], d),
        xor_row(a[4], d),
    ]
}

fn rotate_row(p: [u64; 5], n: [u32; 5]) -> [u64; 5]
    requires { Offsets n }
    ensures { result ≡ five (λ x. rotl (get_or n x 0) (get_or p x 0)) }
{
    [
        rotl(p[0], n[0]),
        rotl(p[1], n[1]),
        rotl(p[2], n[2]),
        rotl(p[3], n[3]),
        rotl(p[4], n[4]),
    ]
}

fn rho(a: [[u64; 5]; 5]) -> [[u64; 5]; 5]
    ensures { result ≡ rho a }
{
    let n = rho_offsets();
    [
        rotate_row(a[0], n[0]),
        rotate_row(a[1], n[1]),
        rotate_row(a[2], n[2]),
        rotate_row(a[3], n[3]),
        rotate_row(a[4], n[4]),
    ]
}

fn pi(a: [[u64; 5]; 5]) -> [[u64; 5]; 5]
    ensures { result ≡ pi a }
{
    let p = a[0];
    let q = a[1];
    let r = a[2];
    let s = a[3];
    let t = a[4];
    [
        [p[0], q[1], r[2], s[3], t[4]],
        [p[3], q[4], r[0], s[1], t[2]],
        [p[1], q[2], r[3], s[4], t[0]],
        [p[4], q[0], r[1], s[2], t[3]],
        [p[2], q[3], r[4], s[0], t[1]],
    ]
}

fn chi_row(p: [u64; 5]) -> [u64; 5]
    ensures { result ≡ chi_row p }
{
    [
        p[0] ^ (!p[1] & p[2]),
        p[1] ^ (!p[2] & p[3]),
        p[2] ^ (!p[3] & p[4]),
        p[3] ^ (!p[4] & p[0]),
        p[4] ^ (!p[0] & p[1]),
    ]
}

fn chi(a: [[u64; 5]; 5]) -> [[u64; 5]; 5]
    ensures { result ≡ chi a }
{
    [
        chi_row(a[0]),
        chi_row(a[1]),
        chi_row(a[2]),
        chi_row(a[3]),
        chi_row(a[4]),
    ]
}

fn iota(a: [[u64; 5]; 5], c: u64) -> [[u64; 5]; 5]
    ensures { result ≡ iota c a }
{
    let mut s = a;
    s[0][0] ^= c;
    s
}

fn round(a: [[u64; 5]; 5], c: u64) -> [[u64; 5]; 5]
    ensures { result ≡ round c a }
{
    iota(chi(pi(rho(theta(a)))), c)
}

pub fn keccak_f(a: [[u64; 5]; 5]) -> [[u64; 5]; 5]
    ensures { result ≡ keccak_f a }
{
    let mut s = a;
    for constant in iota_constants() {
        // By a name of its own, since the check covers no call whose result is laid into an array in place.
        let t = round(s, constant);
        s = t;
    }
    s
}
