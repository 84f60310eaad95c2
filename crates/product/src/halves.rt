// Products of Toeplitz matrices with vectors, from three of half the length: of the middle matrix with the sum of the
// vector's halves, and of what the upper and the lower one have more than it with one half each.
// Loops read a second list by place: a proof does not know what was written through `iter_mut().zip(..)`.
#![tactic(auto, using(bits::proofs::Filling::filling_begun, bits::proofs::Filling::filling_all), unfolding(ring::specs::Poly::residues, crate::specs::Halves::folded, crate::specs::Halves::row_difference))]

ghost use Rattle.std.specs.Prelude.{◌≡◌, ◌+◌, ◌*◌, ◌≤◌, length};
ghost use Rattle.product.specs.Toeplitz.{Matrix, with_toeplitz};
ghost use Rattle.product.specs.Halves.{folded, row_difference};

use crate::rows::{Columns, Rows};
use ring::poly::{add, difference, sum};

// The sum of both halves of v.
fn fold(v: &[u16], dst: &mut [u16])
    requires { length v.now ≡ 2 * length dst.old }
    ensures { dst.new ≡ folded (length dst.old) v.now }
{
    let h = dst.len();
    for (k, x) in dst.iter_mut().enumerate() {
        *x = sum(v[k], v[h + k]);
    }
}

// The entries of row from place a on, less those from place b on.
fn row_difference(row: &[u16], a: usize, b: usize, dst: &mut [u16])
    requires { (a + length dst.old ≤ length row.now) × (b + length dst.old ≤ length row.now) }
    ensures { dst.new ≡ row_difference a b (length dst.old) row.now }
{
    for (k, x) in dst.iter_mut().enumerate() {
        *x = difference(row[a + k], row[b + k]);
    }
}

// Adds the product of a matrix of N rows with v, by R for half as many.
fn by_halves<const H: usize, const N: usize, R: Rows<H>>(acc: &mut [u16], row: &[u16], v: &[u16])
    requires halves { N ≡ H + H }
    requires matrix { Matrix N acc.old row.now v.now }
    ensures { acc.new ≡ with_toeplitz acc.old row.now v.now }
{
    let mut both = [0; H];
    let mut middle = [0; H];
    let mut part = [0; N];
    fold(v, &mut both);
    R::multiply_add(&mut middle, &row[H..H + N], &both);
    row_difference(row, 0, H, &mut part);
    R::multiply_add(&mut acc[..H], &part, &v[H..]);
    row_difference(row, N, H, &mut part);
    R::multiply_add(&mut acc[H..], &part, &v[..H]);
    add(&mut acc[..H], &middle);
    add(&mut acc[H..], &middle);
}

// Down to 64 rows, which are multiplied by columns.
pub struct Halves;

impl Rows<128> for Halves {
    fn multiply_add(acc: &mut [u16], row: &[u16], v: &[u16]) {
        by_halves::<64, 128, Columns>(acc, row, v);
    }
}

impl Rows<256> for Halves {
    fn multiply_add(acc: &mut [u16], row: &[u16], v: &[u16]) {
        by_halves::<128, 256, Halves>(acc, row, v);
    }
}

impl Rows<512> for Halves {
    fn multiply_add(acc: &mut [u16], row: &[u16], v: &[u16]) {
        by_halves::<256, 512, Halves>(acc, row, v);
    }
}
