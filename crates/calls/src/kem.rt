// The hashes of encapsulation and decapsulation (01, "Shared keys").
ghost use Rattle.std.specs.Prelude.{◌≡◌, ◌++◌, ◌≤◌, ◌<◌, length};
ghost use Rattle.hash.specs.Shake.{shake};
ghost use Rattle.kindi.specs.Params.{WellFormed};
ghost use Rattle.kindi.specs.Kem.{digest, shared_key};

use hash::sponge::Sponge;
use kindi::Params;

// Fills output with the first bytes of SHAKE of two strings, one after the other.
fn shake_joined(rate: usize, first: &[u8], second: &[u8], output: &mut [u8])
    requires { (0 < rate) × (rate ≤ 200) }
    ensures { output.new ≡ shake rate (first.now ++ second.now) (length output.old) }
{
    let begun = Sponge::new(rate).absorb(first);
    let taken = begun.absorb(second);
    let complete = taken.finish();
    complete.squeeze(output);
}

// The digest d of the coins.
pub fn digest(p: Params, coins: &[u8], d: &mut [u8])
    requires { (WellFormed p) × (length d.old ≡ p.coins) }
    ensures { d.new ≡ digest p coins.now }
{
    shake_joined(p.rate, coins, &[4], d);
}

// The shared key of the coins and the ciphertext.
pub fn shared_key(p: Params, coins: &[u8], ct: &[u8], key: &mut [u8])
    requires { (WellFormed p) × (length key.old ≡ p.coins) }
    ensures { key.new ≡ shared_key p coins.now ct.now }
{
    shake_joined(p.rate, coins, ct, key);
}
