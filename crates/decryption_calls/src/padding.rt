// A padded message that decryption has found: its end, and the message output. No branch or index depends on its bytes.
ghost use Rattle.std.specs.Prelude.{◌≡◌, ◌≤◌, length};
ghost use Rattle.kindi.specs.Decrypt.{ending};
ghost use Rattle.kindi.specs.Calls.{message_output};
ghost use Rattle.decryption_calls.specs.Fitting.{ending_of, all_zero};

use bits::select;
use calls::work;
use keccak::strings::copy;

// The last non-zero byte, 0 where there is none, and its place. It is no Option, which would ask for a branch on a secret byte.
#[derive(Clone, Copy)]
pub struct Ended {
    pub mark: u8,
    pub len: usize,
}

// How a padded message ends; every byte is read.
pub fn ending(c: &[u8]) -> Ended
    ensures { (ending c.now ≡ ending_of c.now result.mark result.len) × (result.len ≤ length c.now) }
{
    let mut mark = 0;
    let mut len = 0;
    for (i, b) in c.iter().enumerate() {
        mark = select(*b == 0, mark, *b);
        len = select(*b == 0, len, i);
    }
    Ended { mark, len }
}

// Whether every byte is 0; every byte is read.
pub fn all_zero(c: &[u8]) -> bool
    ensures { result ≡ all_zero c.now }
{
    c.iter().fold(true, |all, b| all & (*b == 0))
}

// The message, then zeros.
pub fn write_message(src: &[u8], dst: &mut [u8])
    requires { length src.now ≤ length dst.old }
    ensures { dst.new ≡ message_output (length dst.old) src.now }
{
    let len = src.len();
    copy(&mut dst[..len], src);
    work::wipe(&mut dst[len..]);
}
