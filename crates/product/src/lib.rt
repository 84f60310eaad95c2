// Sums of products of polynomials modulo X^n + 1, with coefficients modulo 2^16.
#![tactic(auto)]

mod halves;
mod rows;

ghost use Rattle.std.specs.Prelude.{◌≡◌, length};
ghost use Rattle.ring.specs.Coefficients.{with_product};
ghost use Rattle.product.specs.Dots.{Factors, Vectors, with_dot};
ghost use Rattle.product.specs.Toeplitz.{Matrix, with_toeplitz};

use halves::Halves;
use ring::poly::double;
use rows::{Rows, toeplitz_rows};

// Adds the product of a Toeplitz matrix with v, by halves down to 64 rows where there are 128, 256 or 512 of them.
fn toeplitz(acc: &mut [u16], row: &[u16], v: &[u16])
    requires { Matrix (length acc.old) acc.old row.now v.now }
    ensures { acc.new ≡ with_toeplitz acc.old row.now v.now }
{
    match acc.len() {
        512 => <Halves as Rows<512>>::multiply_add(acc, row, v),
        256 => <Halves as Rows<256>>::multiply_add(acc, row, v),
        128 => <Halves as Rows<128>>::multiply_add(acc, row, v),
        _ => toeplitz_rows(acc, row, v),
    }
}

// acc + a·b.
pub fn multiply_add(acc: &mut [u16], a: &[u16], b: &[u16])
    requires { Factors acc.old a.now b.now }
    ensures { acc.new ≡ with_product acc.old a.now b.now }
{
    let end = 2 * acc.len();
    let mut row = [0; 1024];
    double(b, &mut row[..end]);
    toeplitz(acc, &row[..end], a);
}

// acc + the sum of f_i·s_i over two vectors of m polynomials, one after another.
#[tactic(auto, using(crate::proofs::Dots::row_fits, crate::proofs::Dots::rows_few))]
pub fn dot_add(acc: &mut [u16], f: &[u16], s: &[u16], m: usize)
    requires { Vectors m acc.old f.now s.now }
    ensures { acc.new ≡ with_dot m acc.old f.now s.now }
{
    let n = acc.len();
    for i in 0..m {
        let at = i * n;
        multiply_add(acc, &f[at..at + n], &s[at..at + n]);
    }
}
