// Keccak-f[1600] (FIPS 202), on strings of 200 bytes.
#![tactic(auto)]

mod rounds;
pub mod strings;

ghost use Rattle.std.specs.Prelude.{◌≡◌};
ghost use Rattle.keccak.specs.Strings.{permute};

// The permutation. It has one caller, as each of its steps has.
pub fn permute(bytes: [u8; 200]) -> [u8; 200]
    ensures { result ≡ permute bytes }
{
    strings::from_state(rounds::keccak_f(strings::to_state(&bytes)))
}
