// Polynomials modulo X^n + 1 with coefficients modulo 2^16, of which every modulus q of the scheme is a divisor.
// Loops read a second list by place: a proof does not know what was written through `iter_mut().zip(..)`.
#![tactic(auto, using(bits::proofs::Filling::filling_begun, bits::proofs::Filling::filling_all), unfolding(crate::specs::Poly::residues))]

ghost use Rattle.std.specs.Prelude.{◌≡◌, ◌+◌, ◌*◌, pos, neg_ℤ, ◌+ℤ◌, ◌-ℤ◌, length};
ghost use Rattle.keccak.specs.Lists.{tabulate};
ghost use Rattle.ring.specs.Integers.{residue};
ghost use Rattle.ring.specs.Poly.{of_nats, residues};
ghost use Rattle.ring.specs.Coefficients.{Factors, with_product, added, taken_from, centred_words};
ghost use Rattle.ring.specs.Terms.{add_term, add_four, doubled};

// A term more, modulo 2^16.
pub fn add_term(acc: u16, a: u16, b: u16) -> u16
    ensures { result ≡ add_term acc a b }
{
    acc.wrapping_add(a.wrapping_mul(b))
}

// Adds the rows of four neighbouring coefficients a to d of one factor; row has the other factor, shifted for d.
fn add_rows(acc: &mut [u16], row: &[u16], a: u16, b: u16, c: u16, d: u16)
    requires { length row.now ≡ length acc.old + 3 }
    ensures { acc.new ≡ tabulate (length acc.old) (add_four acc.old row.now a b c d) }
{
    for (k, x) in acc.iter_mut().enumerate() {
        let two = add_term(add_term(*x, a, row[k + 3]), b, row[k + 2]);
        *x = add_term(add_term(two, c, row[k + 1]), d, row[k]);
    }
}

pub fn sum(a: u16, b: u16) -> u16
    ensures { result ≡ residue 65536 (pos a +ℤ pos b) }
{
    a.wrapping_add(b)
}

pub fn difference(a: u16, b: u16) -> u16
    ensures { result ≡ residue 65536 (pos a -ℤ pos b) }
{
    a.wrapping_sub(b)
}

pub fn negate(src: &[u16], dst: &mut [u16])
    requires { length dst.old ≡ length src.now }
    ensures { dst.new ≡ residues 65536 (length src.now) (λ k. neg_ℤ (of_nats src.now k)) }
{
    for (k, x) in dst.iter_mut().enumerate() {
        *x = difference(0, src[k]);
    }
}

// By a loop: the library's copy takes 16 bytes more of the stack, which KINDI_STACK_LEN bounds.
fn copy(src: &[u16], dst: &mut [u16])
    requires { length dst.old ≡ length src.now }
    ensures { dst.new ≡ src.now }
{
    for k in 0..src.len() {
        dst[k] = src[k];
    }
}

// −b and then b: from place n − i on stand the coefficients of X^i times b.
pub fn double(b: &[u16], row: &mut [u16])
    requires { length row.old ≡ 2 * length b.now }
    ensures { row.new ≡ doubled b.now }
{
    let n = b.len();
    negate(b, &mut row[..n]);
    copy(b, &mut row[n..]);
}

// acc + a·b. Tests and the benchmark call it; the scheme takes `product::multiply_add`, which promises the same by another
// method.
pub fn multiply_add(acc: &mut [u16], a: &[u16], b: &[u16])
    requires { Factors acc.old a.now b.now }
    ensures { acc.new ≡ with_product acc.old a.now b.now }
{
    let n = acc.len();
    let mut row = [0; 1024];
    double(b, &mut row[..2 * n]);
    for i in (0..n).step_by(4) {
        add_rows(
            acc,
            &row[n - i - 3..2 * n - i],
            a[i],
            a[i + 1],
            a[i + 2],
            a[i + 3],
        );
    }
}

pub fn add(acc: &mut [u16], b: &[u16])
    requires { length b.now ≡ length acc.old }
    ensures { acc.new ≡ added acc.old b.now }
{
    for (k, x) in acc.iter_mut().enumerate() {
        *x = sum(*x, b[k]);
    }
}

// Each value taken from c.
pub fn subtract_from(c: u16, xs: &mut [u16])
    ensures { xs.new ≡ taken_from c xs.old }
{
    for x in xs.iter_mut() {
        *x = difference(c, *x);
    }
}

// Each value less p.
pub fn centre(xs: &mut [u16], p: u16)
    ensures { xs.new ≡ centred_words p xs.old }
{
    for x in xs.iter_mut() {
        *x = difference(*x, p);
    }
}
