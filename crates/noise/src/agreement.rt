// Whether the polynomials that a key stores are those of b.
ghost use Rattle.std.specs.Prelude.{◌≡◌, ◌-◌, length};
ghost use Rattle.kindi.specs.Params.{length_of};
ghost use Rattle.kindi.specs.Keys.{joined};
ghost use Rattle.kindi.specs.Answers.{same};
ghost use Rattle.noise.specs.Rooms.{StringRoom, AgreementRoom};
ghost use Rattle.noise.specs.Terms.{dropped_bits};

use crate::factors;
use kindi::Params;
use vectors::strings::same_bytes;

// Whether polynomial i of b without its low t bits is what is stored; values and dropped have room for it.
fn polynomial_agrees(
    p: Params,
    b: &[u8],
    i: usize,
    stored: &[u8],
    values: &mut [u16],
    dropped: &mut [u8],
) -> bool
    requires { (StringRoom p p.k b.now i (length values.old))
        × (length stored.now ≡ length_of p 1 (p.k - p.t)) × (length dropped.old ≡ length_of p 1 (p.k - p.t)) }
    ensures { result ≡ same stored.now (dropped_bits p b.now i) }
{
    factors::values(p, p.k, b, i, values);
    vectors::compress(values, p.t);
    packing::pack(p.k - p.t, values, dropped);
    same_bytes(stored, dropped)
}

// Whether all polynomials of b without their low t bits are what is stored.
pub fn agree(p: Params, b: &[u8], stored: &[u8], values: &mut [u16], dropped: &mut [u8]) -> bool
    requires { AgreementRoom p b.now stored.now (length values.old) (length dropped.old) }
    ensures { result ≡ same stored.now (joined p.l (dropped_bits p b.now)) }
{
    let part = dropped.len();
    let mut all = true;
    for i in 0..p.l {
        let at = i * part;
        let agrees = polynomial_agrees(p, b, i, &stored[at..at + part], values, dropped);
        all &= agrees;
    }
    all
}
