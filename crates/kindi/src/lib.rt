// The parameter sets of KINDI (01, "Parameter sets"). The definitions and theorems of the scheme stand in specs/ and proofs/.
#![tactic(auto)]

ghost use Rattle.std.specs.Prelude.{◌≡◌};
ghost use Rattle.kindi.specs.Params.{Parameters};

// What a set fixes: n, ℓ, p, t and k, the lengths of seeds and coins in bytes, and the rate of its SHAKE in bytes.
// No ghost field says that they are well formed: the theorems speak of every record of these numbers, well formed or not.
#[derive(Clone, Copy)]
pub struct Params {
    pub n: usize,
    pub l: usize,
    pub p: u16,
    pub t: u32,
    pub k: u32,
    pub seed: usize,
    pub coins: usize,
    pub rate: usize,
}

// The parameters of a set; those of set 4 where there is no such set, which every call refuses.
// It takes a number and no enum, since it answers for every number: a call takes its parameters before it checks its arguments.
pub fn parameters(set: u32) -> Params
    ensures { Parameters set result }
{
    match set {
        1 => Params {
            n: 256,
            l: 3,
            p: 4,
            t: 2,
            k: 14,
            seed: 32,
            coins: 32,
            rate: 168,
        },
        2 => Params {
            n: 512,
            l: 2,
            p: 2,
            t: 2,
            k: 13,
            seed: 64,
            coins: 64,
            rate: 136,
        },
        3 => Params {
            n: 512,
            l: 2,
            p: 4,
            t: 1,
            k: 14,
            seed: 64,
            coins: 64,
            rate: 136,
        },
        _ => Params {
            n: 512,
            l: 3,
            p: 2,
            t: 1,
            k: 13,
            seed: 64,
            coins: 64,
            rate: 136,
        },
    }
}
