// Bytes as text and as numbers, for the programs over the layers.
#![tactic(auto)]

ghost use Rattle.std.specs.Prelude.{◌≡◌, ◌+◌, ◌*◌, ◌<◌, length};
ghost use Rattle.hex_digits.specs.Digits.{digit, byte_digits, hexadecimal};

// The number of two bytes, low byte first.
pub fn pair(low: u8, high: u8) -> u16
    ensures { result ≡ low + 256 * high }
{
    u16::from_le_bytes([low, high])
}

fn digit(d: u8) -> u8
    requires { d < 16 }
    ensures { result ≡ digit d }
{
    if d < 10 { b'0' + d } else { b'a' + (d - 10) }
}

// The two digits of a byte.
fn spell_byte(b: u8) -> [u8; 2]
    ensures { result ≡ byte_digits b }
{
    [digit(b / 16), digit(b % 16)]
}

// Writes the digits of the bytes, for which line has just the room.
// Not by `hex::encode_to_slice`, whose `Result` the length here rules out: that is no plainer.
pub fn spell(bytes: &[u8], line: &mut [u8])
    requires { length line.old ≡ 2 * length bytes.now }
    ensures { line.new ≡ hexadecimal bytes.now }
{
    // By place: a proof does not know what was written through `chunks_exact_mut`.
    for (i, b) in bytes.iter().enumerate() {
        line[2 * i..2 * i + 2].copy_from_slice(&spell_byte(*b));
    }
}
