// Why a call is turned down. Inside the library a refusal is an error; the C interface has its number (include/kindi.h, kindi_status).
ghost use Rattle.std.specs.Prelude.{◌≡◌};
ghost use Rattle.calls.specs.Refusals.{number_of, status_of};

use bits::select;

#[derive(Clone, Copy, Debug, PartialEq, Eq)]
pub enum Refusal {
    NoSuchSet,
    WrongInputLen,
    MessageTooLong,
    WrongOutputLen,
    ErrorTooLarge,
    WrongPadding,
    WrongDigest,
    WrongPublicKey,
    NoneClear,
    WrongCount,
    EqualCoins,
    PastLimit,
}

impl From<Refusal> for u32 {
    ghost from_gives = { λ refusal number. number ≡ number_of refusal };

    // 10 to 12 are of records. The number is counted: a secret may have decided the refusal, and a table, which the numbers as
    // discriminants are, would be read at its place.
    fn from(refusal: Refusal) -> u32 {
        let place = refusal as u32;
        place + select(place > 8, 4, 1)
    }
}

// The number that the C interface returns for an answer: 0 is success.
pub fn status<T>(answer: &Result<T, Refusal>) -> u32
    ensures { result ≡ status_of answer.now }
{
    match answer {
        Ok(_) => 0,
        Err(refusal) => u32::from(*refusal),
    }
}
