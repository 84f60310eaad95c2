// The C interface of the KINDI library. Each call answers by its arguments alone and asks nothing of
// them: no call has a `requires`. Here a result becomes the status number that C is returned.
#![tactic(auto)]

ghost use Rattle.calls.specs.Exits.{ShakeExit};
ghost use Rattle.encryption_calls.specs.Exits.{KeygenExit, EncryptExit, EncapsExit};
ghost use Rattle.recipients.specs.Exits.{EncryptEachExit};
ghost use Rattle.decryption_calls.specs.Exits.{DecryptExit, DecapsExit};
ghost use Rattle.noise_calls.specs.Exits.{NoiseExit, ChooseExit};

use calls::refusal::status;

// Fills output with the bytes of SHAKE128 of input from a place on.
#[unsafe(no_mangle)]
pub extern "C" fn kindi_shake128(input: &[u8], place: usize, output: &mut [u8]) -> u32
    ensures { ShakeExit 168 input.now place output.old result output.new }
{
    status(&calls::shake::shake128(input, place, output))
}

// Fills output with the bytes of SHAKE256 of input from a place on.
#[unsafe(no_mangle)]
pub extern "C" fn kindi_shake256(input: &[u8], place: usize, output: &mut [u8]) -> u32
    ensures { ShakeExit 136 input.now place output.old result output.new }
{
    status(&calls::shake::shake256(input, place, output))
}

// Makes a public and a secret key from three seeds.
#[unsafe(no_mangle)]
pub extern "C" fn kindi_keygen(
    set: u32,
    mu: &[u8],
    gamma: &[u8],
    z: &[u8],
    pk: &mut [u8],
    sk: &mut [u8],
    work: &mut [u8],
) -> u32
    ensures { KeygenExit set mu.now gamma.now z.now
        pk.old sk.old work.old result pk.new sk.new work.new }
{
    status(&encryption_calls::keygen::keygen(set, mu, gamma, z, pk, sk, work))
}

// Encrypts a message with coins under a public key.
#[unsafe(no_mangle)]
pub extern "C" fn kindi_encrypt(
    set: u32,
    pk: &[u8],
    coins: &[u8],
    message: &[u8],
    ct: &mut [u8],
    work: &mut [u8],
) -> u32
    ensures { EncryptExit set pk.now coins.now message.now
        ct.old work.old result ct.new work.new }
{
    status(&encryption_calls::encrypt::encrypt(set, pk, coins, message, ct, work))
}

// Encrypts one message to several recipients, each with a public key and coins of its own.
#[unsafe(no_mangle)]
pub extern "C" fn kindi_encrypt_each(
    set: u32,
    count: u32,
    keys: &[u8],
    list: &[u8],
    message: &[u8],
    cts: &mut [u8],
    work: &mut [u8],
) -> u32
    ensures { EncryptEachExit set count keys.now list.now message.now
        cts.old work.old result cts.new work.new }
{
    status(&recipients::each::encrypt_each(set, count, keys, list, message, cts, work))
}

// Decrypts a ciphertext with a secret key.
#[unsafe(no_mangle)]
pub extern "C" fn kindi_decrypt(
    set: u32,
    sk: &[u8],
    ct: &[u8],
    coins: &mut [u8],
    message: &mut [u8],
    message_len: &mut usize,
    work: &mut [u8],
) -> u32
    ensures { DecryptExit set sk.now ct.now coins.old message.old
        work.old result coins.new message.new message_len.new work.new }
{
    let answer = decryption_calls::decrypt::decrypt(set, sk, ct, coins, message, work);
    *message_len = answer.unwrap_or(0);
    status(&answer)
}

// Makes a shared key from coins, and the ciphertext that carries it under a public key.
#[unsafe(no_mangle)]
pub extern "C" fn kindi_encaps(
    set: u32,
    pk: &[u8],
    coins: &[u8],
    key: &mut [u8],
    ct: &mut [u8],
    work: &mut [u8],
) -> u32
    ensures { EncapsExit set pk.now coins.now key.old
        ct.old work.old result key.new ct.new work.new }
{
    status(&encryption_calls::encaps::encaps(set, pk, coins, key, ct, work))
}

// Makes the shared key again that a ciphertext carries.
#[unsafe(no_mangle)]
pub extern "C" fn kindi_decaps(
    set: u32,
    sk: &[u8],
    ct: &[u8],
    key: &mut [u8],
    work: &mut [u8],
) -> u32
    ensures { DecapsExit set sk.now ct.now key.old work.old
        result key.new work.new }
{
    status(&decryption_calls::decaps::decaps(set, sk, ct, key, work))
}

// Tells whether coins and a message are clear under a secret key, and the largest absolute value of their noise.
#[unsafe(no_mangle)]
pub extern "C" fn kindi_noise(
    set: u32,
    sk: &[u8],
    coins: &[u8],
    message: &[u8],
    clear: &mut u32,
    largest: &mut u32,
    work: &mut [u8],
) -> u32
    ensures { NoiseExit set sk.now coins.now message.now work.old
        result clear.new largest.new work.new }
{
    let answer = noise_calls::measure::noise(set, sk, coins, message, work);
    *clear = answer.map_or(0, |measured| u32::from(measured.clear));
    *largest = answer.map_or(0, |measured| measured.largest);
    status(&answer)
}

// Gives the place of clear coins in a list of 1 to 8.
#[unsafe(no_mangle)]
pub extern "C" fn kindi_choose(
    set: u32,
    sk: &[u8],
    message: &[u8],
    list: &[u8],
    place: &mut u32,
    work: &mut [u8],
) -> u32
    ensures { ChooseExit set sk.now message.now list.now work.old
        result place.new work.new }
{
    let answer = noise_calls::choose::choose(set, sk, message, list, work);
    *place = answer.unwrap_or(0);
    status(&answer)
}
