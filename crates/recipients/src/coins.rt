// Whether two of the listed coins are equal. Every byte of every pair is read, and what is found is gathered. By place:
// coins of no bytes are not ruled out here, and `chunks_exact` asks for some.
ghost use Rattle.std.specs.Prelude.{◌≡◌, ◌*◌, ◌≤◌, length};
ghost use Rattle.keccak.specs.Lists.{tabulate};
ghost use Rattle.kindi.specs.Answers.{same, some, part_at, equal_coins};

use kindi::Params;
use vectors::strings::same_bytes;

// Whether one of the first `count` coins of a list is this one.
#[tactic(auto, using(crate::proofs::Places::part_fits))]
fn is_among(list: &[u8], count: usize, one: &[u8]) -> bool
    requires { count * length one.now ≤ length list.now }
    ensures { result ≡ some (tabulate count (λ i. same (part_at (length one.now) list.now i) one.now)) }
{
    let long = one.len();
    let mut found = false;
    for i in 0..count {
        let at = i * long;
        found |= same_bytes(&list[at..at + long], one);
    }
    found
}

// Whether two of the coins of a list are equal: each is held against all before it.
#[tactic(auto, using(crate::proofs::Places::part_fits))]
pub fn equal_coins(p: Params, count: usize, list: &[u8]) -> bool
    requires { length list.now ≡ count * p.coins }
    ensures { result ≡ equal_coins p count list.now }
{
    let coins = p.coins;
    let mut found = false;
    for j in 0..count {
        let at = j * coins;
        found |= is_among(list, j, &list[at..at + coins]);
    }
    found
}
