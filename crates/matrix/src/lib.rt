// Products with the matrix A (01, "Bits and streams"). A is fetched polynomial by polynomial in the order of its stream, which is
// run once, so that one polynomial is held at a time; nothing else knows how A comes about.
#![tactic(auto)]

ghost use Rattle.std.specs.Prelude.{◌≡◌};
ghost use Rattle.kindi.specs.Params.{WellFormed};
ghost use Rattle.matrix.specs.Product.{ProductRoom, with_matrix};
ghost use Rattle.matrix.specs.Walk.{stream_at, FetchRoom, Fetched, TermRoom, Added, StepRoom, Stepped};

use hash::sponge::Sponge;
use kindi::Params;

// The stream of μ from its start.
fn begin(p: Params, mu: &[u8]) -> Sponge
    requires { WellFormed p }
    ensures { result ≡ stream_at p mu.now 0 }
{
    let taken = Sponge::new(p.rate).absorb(mu);
    taken.finish()
}

// Fetches the next polynomial into a, by way of bytes.
fn fetch(p: Params, s: Sponge, bytes: &mut [u8], a: &mut [u16]) -> Sponge
    requires { FetchRoom p s bytes.old a.old }
    ensures { Fetched p s result a.new }
{
    let next = s.squeeze(bytes);
    packing::unpack(p.k, bytes, a);
    next
}

// Adds a·v_from to sum `to`.
fn add_term(n: usize, a: &[u16], from: usize, v: &[u16], to: usize, sums: &mut [u16])
    requires { TermRoom n from to a.now v.now sums.old }
    ensures { Added n from to a.now v.now sums.old sums.new }
{
    let f = from * n;
    let t = to * n;
    product::multiply_add(&mut sums[t..t + n], a, &v[f..f + n]);
}

// Fetches the polynomial in row i and column j, and adds its product: A_ij·v_i to sum j, or A_ij·v_j to sum i.
fn step(
    p: Params,
    s: Sponge,
    columns: bool,
    i: usize,
    j: usize,
    v: &[u16],
    bytes: &mut [u8],
    a: &mut [u16],
    sums: &mut [u16],
) -> Sponge
    requires { StepRoom p s i j v.now bytes.old a.old sums.old }
    ensures { Stepped p s columns i j v.now sums.old result sums.new }
{
    let after = fetch(p, s, bytes, a);
    let from = bits::select(columns, i, j);
    let to = bits::select(columns, j, i);
    add_term(p.n, a, from, v, to, sums);
    after
}

// Adds the products of the columns of A, or of its rows, with v to the sums, polynomial by polynomial; bytes and a have room for
// one polynomial of A. `columns` is a Boolean, as in the definition `with_matrix`.
pub fn add_product(
    p: Params,
    mu: &[u8],
    columns: bool,
    v: &[u16],
    bytes: &mut [u8],
    a: &mut [u16],
    sums: &mut [u16],
)
    requires { ProductRoom p v.now bytes.old a.old sums.old }
    ensures { sums.new ≡ with_matrix p mu.now columns v.now sums.old }
{
    let mut s = begin(p, mu);
    for i in 0..p.l {
        for j in 0..p.l {
            s = step(p, s, columns, i, j, v, bytes, a, sums);
        }
    }
}
