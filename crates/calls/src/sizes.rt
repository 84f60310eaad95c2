// The lengths of keys and work areas, in bytes.
ghost use Rattle.std.specs.Prelude.{◌≡◌, ◌≤◌};
ghost use Rattle.kindi.specs.Params.{WellFormed, public_length, secret_length, keygen_work, encrypt_work, decrypt_work, noise_work};

use kindi::Params;
use vectors::lengths;

pub fn public_key(p: Params) -> usize
    requires { WellFormed p }
    ensures { (result ≡ public_length p) × (result ≤ 131072) }
{
    lengths::stored(p) + p.seed
}

pub fn secret_key(p: Params) -> usize
    requires { WellFormed p }
    ensures { result ≡ secret_length p }
{
    public_key(p) + (p.seed + p.seed)
}

pub fn keygen_work(p: Params) -> usize
    requires { WellFormed p }
    ensures { result ≡ keygen_work p }
{
    lengths::secrets(p).max(lengths::polynomial(p))
}

pub fn encrypt_work(p: Params) -> usize
    requires { WellFormed p }
    ensures { (result ≡ encrypt_work p) × (result ≤ 262144) }
{
    lengths::coins_stream(p).max(lengths::polynomial(p))
}

pub fn decrypt_work(p: Params) -> usize
    requires { WellFormed p }
    ensures { result ≡ decrypt_work p }
{
    let behind = (lengths::high(p) + lengths::rest(p)).max(lengths::polynomial(p));
    lengths::low(p) + lengths::padded(p) + behind
}

pub fn noise_work(p: Params) -> usize
    requires { WellFormed p }
    ensures { result ≡ noise_work p }
{
    lengths::secrets(p) + encrypt_work(p)
}
