// Reads cases of the ring on standard input and writes the answer of each as a line of hexadecimal.
// A case is a head of eight bytes and a body. The head has the kind, the width w and, in two bytes
// each with the low byte first, the number n of coefficients, p and a bound; a list has n
// coefficients of two bytes each. A case that is cut short, of another kind, with w over 16 or n
// over 512, ends the run.
#![tactic(auto)]

ghost use Rattle.std.specs.Prelude.{◌≡◌, ◌+◌, ◌*◌, ◌<◌, ◌≤◌, length};
ghost use Rattle.bits.specs.Bits.{bytes_for};
ghost use Rattle.ring.specs.Integers.{largest};

use std::io;
use std::io::{Read, Write};

// The run ends: the input is at its end or has no case there, or a write failed.
#[derive(Clone, Copy)]
struct Stop;

impl From<io::Error> for Stop {
    fn from(_: io::Error) -> Stop {
        Stop
    }
}

// What a case asks for.
#[derive(Clone, Copy)]
enum Kind {
    Pack,
    Unpack,
    Product,
    SignedProduct,
    Sum,
}

impl TryFrom<u8> for Kind {
    type Error = Stop;

    fn try_from(kind: u8) -> Result<Kind, Stop> {
        match kind {
            1 => Ok(Kind::Pack),
            2 => Ok(Kind::Unpack),
            3 => Ok(Kind::Product),
            4 => Ok(Kind::SignedProduct),
            5 => Ok(Kind::Sum),
            _ => Err(Stop),
        }
    }
}

// The head of a case.
#[derive(Clone, Copy)]
struct Head {
    kind: Kind,
    w: u32,
    n: usize,
    p: u16,
    bound: u16,
    ghost narrow: { w ≤ 16 },
    ghost short: { n ≤ 512 },
}

fn read_head<R: Read>(reader: &mut R) -> Result<Head, Stop> {
    let mut bytes = [0u8; 8];
    reader.read_exact(&mut bytes)?;
    let kind = Kind::try_from(bytes[0])?;
    let w = u32::from(bytes[1]);
    let n = usize::from(hex_digits::pair(bytes[2], bytes[3]));
    let p = hex_digits::pair(bytes[4], bytes[5]);
    let bound = hex_digits::pair(bytes[6], bytes[7]);
    if 16 < w || 512 < n {
        return Err(Stop);
    }
    Ok(Head {
        kind,
        w,
        n,
        p,
        bound,
    })
}

// Writes an answer as a line.
fn write_line<W: Write>(writer: &mut W, answer: &[u8]) -> Result<(), Stop>
    requires { length answer.now ≤ 2053 }
{
    let mut line = [0u8; 4107];
    let m = 2 * answer.len();
    hex_digits::spell(answer, &mut line[..m]);
    line[m] = b'\n';
    writer.write_all(&line[..m + 1])?;
    Ok(())
}

fn write_list<W: Write>(writer: &mut W, xs: &[u16]) -> Result<(), Stop>
    requires { length xs.now ≤ 512 }
{
    let mut answer = [0u8; 1024];
    let m = 2 * xs.len();
    bits::store(xs, &mut answer[..m]);
    write_line(writer, &answer[..m])
}

// Reads the next list of the case, as long as xs.
fn read_list<R: Read>(reader: &mut R, xs: &mut [u16]) -> Result<(), Stop>
    requires { length xs.old ≤ 512 }
{
    let mut body = [0u8; 1024];
    let m = 2 * xs.len();
    reader.read_exact(&mut body[..m])?;
    bits::load(&body[..m], xs);
    Ok(())
}

// The bytes that n coefficients of w bits fill.
fn bytes_for(w: u32, n: usize) -> usize
    requires { (w ≤ 16) × (n ≤ 512) }
    ensures { (result ≡ bytes_for (w * n)) × (result ≤ 1024) }
{
    (w as usize * n).div_ceil(8)
}

// A list, packed.
fn pack<R: Read, W: Write>(reader: &mut R, writer: &mut W, head: Head) -> Result<(), Stop> {
    let mut xs = [0u16; 512];
    let mut bytes = [0u8; 1024];
    let xs = &mut xs[..head.n];
    let bytes = &mut bytes[..bytes_for(head.w, head.n)];
    read_list(reader, xs)?;
    packing::pack(head.w, xs, bytes);
    write_line(writer, bytes)
}

// The list that bytes hold.
fn unpack<R: Read, W: Write>(reader: &mut R, writer: &mut W, head: Head) -> Result<(), Stop> {
    let mut xs = [0u16; 512];
    let mut bytes = [0u8; 1024];
    let xs = &mut xs[..head.n];
    let bytes = &mut bytes[..bytes_for(head.w, head.n)];
    reader.read_exact(bytes)?;
    packing::unpack(head.w, bytes, xs);
    write_list(writer, xs)
}

// The product of a list and one of values that are centred by p, added to a list.
fn product<R: Read, W: Write>(reader: &mut R, writer: &mut W, head: Head) -> Result<(), Stop> {
    let n = head.n;
    if n % 4 != 0 {
        return Err(Stop);
    }
    let mut acc = [0u16; 512];
    let mut a = [0u16; 512];
    let mut v = [0u16; 512];
    let (acc, a, v) = (&mut acc[..n], &mut a[..n], &mut v[..n]);
    read_list(reader, acc)?;
    read_list(reader, a)?;
    read_list(reader, v)?;
    ring::poly::centre(v, head.p);
    ring::poly::multiply_add(acc, a, v);
    bits::reduce(acc, head.w);
    write_list(writer, acc)
}

// p less each value of the sum of two lists.
fn sum<R: Read, W: Write>(reader: &mut R, writer: &mut W, head: Head) -> Result<(), Stop> {
    let n = head.n;
    let mut acc = [0u16; 512];
    let mut next = [0u16; 512];
    let (acc, next) = (&mut acc[..n], &mut next[..n]);
    read_list(reader, acc)?;
    read_list(reader, next)?;
    ring::poly::add(acc, next);
    ring::poly::subtract_from(head.p, acc);
    write_list(writer, acc)
}

// Takes each value modulo 2^w and centres it by p: what comes out is at most 1,024 in size, so that
// no product of two such lists overflows.
fn centre(w: u32, p: u16, values: &mut [u16], xs: &mut [i16])
    requires { (w ≤ 10) × (p ≤ 1024) × (length values.old ≡ length xs.old) }
    ensures { largest xs.new ≤ 1024 }
{
    bits::reduce(values, w);
    signed::centre(values, p, xs);
}

// Integers in two's complement with the low byte first, the largest of their sizes, and whether all lie strictly between −bound and
// bound, as a byte.
fn put_answer(xs: &[i32], bound: u16, answer: &mut [u8])
    requires { length answer.old ≡ 4 * length xs.now + 5 }
{
    let high = i32::from(bound);
    let (words, rest) = answer.split_at_mut(4 * xs.len());
    for (x, word) in xs.iter().zip(words.chunks_exact_mut(4)) {
        word.copy_from_slice(&x.to_le_bytes());
    }
    rest[..4].copy_from_slice(&signed::largest(xs).to_le_bytes());
    rest[4] = u8::from(signed::all_between(xs, -high, high));
}

fn write_integers<W: Write>(writer: &mut W, xs: &[i32], bound: u16) -> Result<(), Stop>
    requires { length xs.now ≤ 512 }
{
    let mut answer = [0u8; 2053];
    let m = 4 * xs.len() + 5;
    put_answer(xs, bound, &mut answer[..m]);
    write_line(writer, &answer[..m])
}

// The product of two lists of values that are centred by p.
fn signed_product<R: Read, W: Write>(
    reader: &mut R,
    writer: &mut W,
    head: Head,
) -> Result<(), Stop> {
    let n = head.n;
    if 10 < head.w || 1024 < head.p {
        return Err(Stop);
    }
    let mut values = [0u16; 512];
    let mut a = [0i16; 512];
    let mut b = [0i16; 512];
    let mut acc = [0i32; 512];
    let (values, a, b, acc) = (&mut values[..n], &mut a[..n], &mut b[..n], &mut acc[..n]);
    read_list(reader, values)?;
    centre(head.w, head.p, values, a);
    read_list(reader, values)?;
    centre(head.w, head.p, values, b);
    signed::multiply_add(acc, a, b);
    write_integers(writer, acc, head.bound)
}

// Reads a case and answers it.
fn one_case<R: Read, W: Write>(reader: &mut R, writer: &mut W) -> Result<(), Stop> {
    let head = read_head(reader)?;
    match head.kind {
        Kind::Pack => pack(reader, writer, head),
        Kind::Unpack => unpack(reader, writer, head),
        Kind::Product => product(reader, writer, head),
        Kind::SignedProduct => signed_product(reader, writer, head),
        Kind::Sum => sum(reader, writer, head),
    }
}

// A proved loop has to end, and nothing says that the input does: it has more turns than any run
// uses up.
fn main(rt: HostRuntime) {
    let mut reader = rt.stdin();
    let mut writer = rt.stdout();
    for _ in 0..u64::MAX {
        if one_case(&mut reader, &mut writer).is_err() {
            return;
        }
    }
}
