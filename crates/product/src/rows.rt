// Products of Toeplitz matrices with vectors, two columns a turn, modulo 2^16.
// Loops read a second list by place: a proof does not know what was written through `iter_mut().zip(..)`.
#![tactic(auto, using(bits::proofs::Filling::filling_begun, bits::proofs::Filling::filling_all))]

ghost use Rattle.std.specs.Prelude.{◌≡◌, ◌+◌, length, get_or};
ghost use Rattle.keccak.specs.Lists.{tabulate};
ghost use Rattle.ring.specs.Terms.{add_term};
ghost use Rattle.product.specs.Toeplitz.{Matrix, with_toeplitz};

use ring::poly::{add, add_term};

// Adds a column times a: acc + a·row.
fn add_column(acc: &mut [u16], row: &[u16], a: u16)
    requires { length row.now ≡ length acc.old }
    ensures { acc.new ≡ tabulate (length acc.old) (λ k. add_term (get_or acc.old k 0) a (get_or row.now k 0)) }
{
    for (k, x) in acc.iter_mut().enumerate() {
        *x = add_term(*x, a, row[k]);
    }
}

// Adds two columns, which are one row's entries from the second and from the first on, times a and times b.
fn add_two(acc: &mut [u16], row: &[u16], a: u16, b: u16)
    requires { length row.now ≡ length acc.old + 1 }
    ensures { acc.new ≡ tabulate (length acc.old)
        (λ k. add_term (add_term (get_or acc.old k 0) a (get_or row.now (k + 1) 0)) b (get_or row.now k 0)) }
{
    for (k, x) in acc.iter_mut().enumerate() {
        *x = add_term(add_term(*x, a, row[k + 1]), b, row[k]);
    }
}

// Adds the product of a Toeplitz matrix with v, two columns a turn.
pub fn toeplitz_rows(acc: &mut [u16], row: &[u16], v: &[u16])
    requires { Matrix (length acc.old) acc.old row.now v.now }
    ensures { acc.new ≡ with_toeplitz acc.old row.now v.now }
{
    let n = acc.len();
    for i in (0..n / 2 * 2).step_by(2) {
        add_two(acc, &row[n - 1 - i..2 * n - i], v[i], v[i + 1]);
    }
    if n % 2 == 1 {
        add_column(acc, &row[1..n + 1], v[n - 1]);
    }
}

// A way to multiply matrices of N rows.
pub trait Rows<const N: usize> {
    // Adds the product of a matrix with v.
    fn multiply_add(acc: &mut [u16], row: &[u16], v: &[u16])
        requires { Matrix N acc.old row.now v.now }
        ensures { acc.new ≡ with_toeplitz acc.old row.now v.now };
}

// Two columns a turn.
pub struct Columns;

impl Rows<64> for Columns {
    // Its own 64 sums, of known number, stay in the processor's registers.
    fn multiply_add(acc: &mut [u16], row: &[u16], v: &[u16]) {
        let mut sums = [0; 64];
        toeplitz_rows(&mut sums, row, v);
        add(acc, &sums);
    }
}
