// Reads cases of SHAKE on standard input and writes the output of each as a line of hexadecimal.
// A case is a byte (1 for SHAKE128, 2 for SHAKE256), the length of the input and that of the
// output, two bytes each, the place of the first byte wanted, four bytes, all with the low byte
// first, and the input. A case that is cut short, of another kind, or too long for the buffers of
// 65,536 bytes, ends the run.
#![tactic(auto)]

ghost use Rattle.std.specs.Prelude.{◌≤◌, ◌<◌};

use std::io::{self, Read, Write};

// Why the run ends: the input is cut short or a write failed, the case is of another kind, or it is too long.
#[derive(Clone, Copy)]
enum Stop {
    Io,
    OtherKind,
    TooLong,
}

impl From<io::Error> for Stop {
    fn from(_error: io::Error) -> Self {
        Stop::Io
    }
}

#[derive(Clone, Copy)]
enum Kind {
    Shake128,
    Shake256,
}

impl TryFrom<u8> for Kind {
    type Error = Stop;

    fn try_from(byte: u8) -> Result<Self, Stop> {
        match byte {
            1 => Ok(Kind::Shake128),
            2 => Ok(Kind::Shake256),
            _ => Err(Stop::OtherKind),
        }
    }
}

impl Kind {
    fn rate(self) -> usize
        ensures { (0 < result) × (result ≤ 200) }
    {
        match self {
            Kind::Shake128 => 168,
            Kind::Shake256 => 136,
        }
    }
}

// Reads a case and answers it, in buffers that the caller lends.
fn one_case<R: Read, W: Write>(
    reader: &mut R,
    writer: &mut W,
    input: &mut [u8],
    output: &mut [u8],
    line: &mut [u8],
) -> Result<(), Stop> {
    let mut head = [0; 9];
    reader.read_exact(&mut head)?;
    let [kind, n0, n1, m0, m1, p0, p1, p2, p3] = head;
    let n = usize::from(hex_digits::pair(n0, n1));
    let m = usize::from(hex_digits::pair(m0, m1));
    let place = usize::from(hex_digits::pair(p0, p1))
        + 65536 * usize::from(hex_digits::pair(p2, p3));
    if input.len() < n || output.len() < m || line.len() < 2 * m + 1 {
        return Err(Stop::TooLong);
    }
    reader.read_exact(&mut input[..n])?;
    let rate = Kind::try_from(kind)?.rate();
    hash::shake_from(rate, &input[..n], place, &mut output[..m]);
    hex_digits::spell(&output[..m], &mut line[..2 * m]);
    line[2 * m] = b'\n';
    writer.write_all(&line[..2 * m + 1])?;
    Ok(())
}

// A proved loop has to end, and nothing says that the input does: it counts up to a number that
// no run reaches.
fn main(rt: HostRuntime) {
    let mut reader = rt.stdin();
    let mut writer = rt.stdout();
    let mut input = [0; 65536];
    let mut output = [0; 65536];
    let mut line = [0; 65536];
    for _ in 0..u64::MAX {
        if one_case(&mut reader, &mut writer, &mut input, &mut output, &mut line).is_err() {
            return;
        }
    }
}
