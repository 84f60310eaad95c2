// Strings of bytes beside one another.
ghost use Rattle.std.specs.Prelude.{◌≡◌, length};
ghost use Rattle.kindi.specs.Answers.{same};

// Whether two strings of one length are the same; every byte is read.
pub fn same_bytes(a: &[u8], b: &[u8]) -> bool
    requires { length a.now ≡ length b.now }
    ensures { result ≡ same a.now b.now }
{
    a.iter().zip(b).fold(true, |all, (x, y)| all & (*x == *y))
}
