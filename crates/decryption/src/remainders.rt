// What remains of a ciphertext, and the padded message that it has.
ghost use Rattle.std.specs.Prelude.{◌≡◌, take, drop};
ghost use Rattle.keccak.specs.Strings.{xor_into};
ghost use Rattle.bits.specs.Bits.{pack, low_bits};
ghost use Rattle.kindi.specs.Params.{width, low_length, padded_length};
ghost use Rattle.kindi.specs.Decrypt.{all_below, errors_fit};
ghost use Rattle.decryption.specs.Opened.{remainders_from};
ghost use Rattle.decryption.specs.Inputs.{RemaindersRoom, UnmaskRoom};

use kindi::Params;
use vectors::lengths;

// Whether every entry is below a bound; all are read.
fn all_below(xs: &[u16], bound: u16) -> bool
    ensures { result ≡ all_below bound xs.now }
{
    xs.iter().fold(true, |all, x| all & (*x < bound))
}

// The remainders, p less the sums, packed, and whether all of them fit. They take the place of the sums. The answer is no Result,
// on which a caller would branch before the outcome is decided.
fn remainders(p: Params, sums: &mut [u16], dst: &mut [u8]) -> bool
    requires { RemaindersRoom p sums.old dst.old }
    ensures { (result ≡ errors_fit p.p (remainders_from p sums.old))
        × (dst.new ≡ pack (width p) (low_bits (width p) (remainders_from p sums.old))) }
{
    ring::poly::subtract_from(p.p, sums);
    bits::reduce(sums, p.k);
    packing::pack(lengths::width(p), sums, dst);
    all_below(sums, 2 * p.p)
}

// Adds the remainders to the mask in the work area, modulo 2; whether all of them fit, as a Boolean for the same reason.
pub fn unmask(p: Params, sums: &mut [u16], work: &mut [u8]) -> bool
    requires { UnmaskRoom p sums.old work.old }
    ensures { (result ≡ errors_fit p.p (remainders_from p sums.old))
        × (take (padded_length p) (drop (low_length p) work.new)
        ≡ xor_into (take (padded_length p) (drop (low_length p) work.old))
        (pack (width p) (low_bits (width p) (remainders_from p sums.old)))) }
{
    let padded = lengths::padded(p);
    let mut packed = [0u8; 1024];
    let fits = remainders(p, sums, &mut packed[..padded]);
    keccak::strings::xor_into(&mut work[lengths::mask(p)], &packed[..padded]);
    fits
}
