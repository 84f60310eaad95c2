// Polynomials modulo X^n + 1 with integer coefficients (01, "Noise"): centred secrets and errors, their products, and the
// size of what comes out.
// Loops read a second list by place: a proof does not know what was written through `iter_mut().zip(..)`.
#![tactic(auto, using(bits::proofs::Filling::filling_begun, bits::proofs::Filling::filling_all))]

ghost use Rattle.std.specs.Prelude.{◌≡◌, ◌++◌, ◌+◌, ◌*◌, ◌/◌, ◌^◌, ◌<◌, max, nat_abs, neg_ℤ, ◌+ℤ◌, ◌*ℤ◌, length};
ghost use Rattle.bits.specs.Bits.{Below};
ghost use Rattle.ring.specs.Integers.{centred, largest, all_between};
ghost use Rattle.ring.specs.Poly.{sum, of_ints};
ghost use Rattle.ring.specs.Coefficients.{Summable, centred_integers, with_signed_product};
ghost use Rattle.ring.specs.Terms.{backwards, negated_backwards, terms, Terms};

fn less(v: u16, p: u16) -> i16
    requires { (v < 32768) × (p < 32768) }
    ensures { result ≡ centred p v }
{
    v as i16 - p as i16
}

// Each value less p.
pub fn centre(src: &[u16], p: u16, dst: &mut [i16])
    requires { (Below 32768 src.now) × (p < 32768) × (length dst.old ≡ length src.now) }
    ensures { dst.new ≡ centred_integers p src.now }
{
    for (k, x) in dst.iter_mut().enumerate() {
        *x = less(src[k], p);
    }
}

fn times(a: i16, b: i16) -> i32
    ensures { result ≡ a *ℤ b }
{
    i32::from(a) * i32::from(b)
}

// Thirty-two terms from place i on, a number that the compiler knows and sums in one vector.
fn thirty_two(a: &[i16], b: &[i16], i: usize) -> i32
    requires { Terms a.now b.now i 32 }
    ensures { result ≡ sum 32 (λ j. terms a.now b.now (i + j)) }
{
    let mut total = 0;
    for j in 0..32 {
        total += times(a[i + j], b[i + j]);
    }
    total
}

// The sum of the products of the entries up to a multiple of 32. By place: what bounds the sums is said of the whole factors,
// and of parts of them it would have to be derived.
fn dot_blocks(a: &[i16], b: &[i16]) -> i32
    requires { (length b.now ≡ length a.now) × (length a.now * (largest a.now * largest b.now) < 2 ^ 31) }
    ensures { result ≡ sum (length a.now / 32 * 32) (terms a.now b.now) }
{
    let mut total = 0;
    for i in (0..a.len() / 32 * 32).step_by(32) {
        total += thirty_two(a, b, i);
    }
    total
}

// The sum of the products of the entries.
fn dot(a: &[i16], b: &[i16]) -> i32
    requires { (length b.now ≡ length a.now) × (length a.now * (largest a.now * largest b.now) < 2 ^ 31) }
    ensures { result ≡ sum (length a.now) (λ i. of_ints a.now i *ℤ of_ints b.now i) }
{
    let mut total = dot_blocks(a, b);
    for i in a.len() / 32 * 32..a.len() {
        total += times(a[i], b[i]);
    }
    total
}

// The coefficients from the last one down.
fn reverse(src: &[i16], dst: &mut [i16])
    requires { length dst.old ≡ length src.now }
    ensures { dst.new ≡ backwards src.now }
{
    dst.copy_from_slice(src);
    dst.reverse();
}

fn reverse_negated(src: &[i16], dst: &mut [i16])
    requires { (length dst.old ≡ length src.now) × (largest src.now < 32768) }
    ensures { dst.new ≡ negated_backwards src.now }
{
    reverse(src, dst);
    for x in dst.iter_mut() {
        *x = -*x;
    }
}

// b from its last coefficient down, and then −b: from place n − 1 − k on stands what the coefficients of the other factor
// meet in coefficient k of the product.
fn double(b: &[i16], row: &mut [i16])
    requires { (length row.old ≡ 2 * length b.now) × (largest b.now < 32768) }
    ensures { row.new ≡ backwards b.now ++ negated_backwards b.now }
{
    let n = b.len();
    reverse(b, &mut row[..n]);
    reverse_negated(b, &mut row[n..]);
}

// acc + a·b.
pub fn multiply_add(acc: &mut [i32], a: &[i16], b: &[i16])
    requires { Summable acc.old a.now b.now }
    ensures { acc.new ≡ with_signed_product acc.old a.now b.now }
{
    let n = acc.len();
    let mut row = [0; 1024];
    double(b, &mut row[..2 * n]);
    for (k, x) in acc.iter_mut().enumerate() {
        *x += dot(a, &row[n - 1 - k..2 * n - 1 - k]);
    }
}

// The largest absolute value.
pub fn largest(xs: &[i32]) -> u32
    ensures { result ≡ largest xs.now }
{
    let mut m = 0;
    for x in xs {
        m = x.unsigned_abs().max(m);
    }
    m
}

// Whether all lie strictly between low and high.
pub fn all_between(xs: &[i32], low: i32, high: i32) -> bool
    ensures { result ≡ all_between low high xs.now }
{
    let mut all = true;
    for x in xs {
        all &= (low < *x) & (*x < high);
    }
    all
}
