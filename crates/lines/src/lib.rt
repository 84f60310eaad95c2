// The text of records (01, "Records on standard input"), in ASCII. A text is written into a lent buffer from a place on, and the
// place after it is returned. The two are passed one by one: of a struct that holds the buffer each contract would also have to say
// that it is the same buffer still, and as long.
#![tactic(auto)]

ghost use Rattle.std.specs.Prelude.{◌≡◌, [], ◌∷◌, ◌++◌, ◌+◌, ◌*◌, ◌≤◌, ◌<◌, length};
ghost use Rattle.hex_digits.specs.Digits.{hexadecimal};
ghost use Rattle.lines.specs.Line.{Written, decimal, field_of, output_field, line, end_line};

// What the line of a record says before its output.
#[derive(Clone, Copy)]
pub struct Line {
    // The record's number.
    pub number: usize,
    // Its kind, where one was read.
    pub kind: Option<u8>,
    pub status: u32,
}

// A text.
fn put(text: &[u8], at: usize, out: &mut [u8]) -> usize
    requires { at + length text.now ≤ length out.old }
    ensures { Written out.old at text.now result out.new }
{
    let end = at + text.len();
    out[at..end].copy_from_slice(text);
    end
}

// A number in decimal.
fn put_decimal(v: usize, at: usize, out: &mut [u8]) -> usize
    requires { at + length (decimal v) ≤ length out.old }
    ensures { Written out.old at (decimal v) result out.new }
{
    if v < 10 {
        return put(&[b'0' + v as u8], at, out);
    }
    let next = put_decimal(v / 10, at, out);
    put(&[b'0' + (v % 10) as u8], next, out)
}

// A number and the space after it.
fn put_number(v: usize, at: usize, out: &mut [u8]) -> usize
    requires { at + 21 ≤ length out.old }
    ensures written { Written out.old at (decimal v ++ (32 ∷ [])) result out.new }
    ensures within { result ≤ at + 21 }
{
    let next = put_decimal(v, at, out);
    put(b" ", next, out)
}

// A record's kind, or - where none was read, and the space after it.
fn put_kind(kind: Option<u8>, at: usize, out: &mut [u8]) -> usize
    requires { at + 21 ≤ length out.old }
    ensures written { Written out.old at (field_of kind ++ (32 ∷ [])) result out.new }
    ensures within { result ≤ at + 21 }
{
    match kind {
        Some(kind) => put_number(usize::from(kind), at, out),
        None => put(b"- ", at, out),
    }
}

// Bytes in hexadecimal.
fn put_hex(bytes: &[u8], at: usize, out: &mut [u8]) -> usize
    requires { at + 2 * length bytes.now ≤ length out.old }
    ensures written { Written out.old at (hexadecimal bytes.now) result out.new }
    ensures end { result ≡ at + 2 * length bytes.now }
{
    let end = at + 2 * bytes.len();
    hex_digits::spell(bytes, &mut out[at..end]);
    end
}

// An output of two parts, or - where it is empty.
fn put_output(first: &[u8], second: &[u8], at: usize, out: &mut [u8]) -> usize
    requires { at + (1 + 2 * (length first.now + length second.now)) ≤ length out.old }
    ensures written { Written out.old at (output_field (first.now ++ second.now)) result out.new }
    ensures within { result ≤ at + (1 + 2 * (length first.now + length second.now)) }
{
    if first.len() + second.len() == 0 {
        return put(b"-", at, out);
    }
    let next = put_hex(first, at, out);
    put_hex(second, next, out)
}

impl Line {
    // The line of a record, whose output has two parts.
    pub fn put(self, first: &[u8], second: &[u8], at: usize, out: &mut [u8]) -> usize
        requires { at + (86 + 2 * (length first.now + length second.now)) ≤ length out.old }
        ensures { Written out.old at
            (line self.number (field_of self.kind) self.status (first.now ++ second.now)) result out.new }
    {
        let n = put_number(self.number, at, out);
        let n = put_kind(self.kind, n, out);
        let n = put_number(self.status as usize, n, out);
        let n = put_number(first.len() + second.len(), n, out);
        let n = put_output(first, second, n, out);
        put(b"\n", n, out)
    }

    // The line of a record that is refused, whose output is empty.
    pub fn put_refusal(self, at: usize, out: &mut [u8]) -> usize
        requires { at + 86 ≤ length out.old }
        ensures { Written out.old at (line self.number (field_of self.kind) self.status []) result out.new }
    {
        self.put(&[], &[], at, out)
    }
}

// The last line: `end` and the number of records.
pub fn put_end(number: usize, at: usize, out: &mut [u8]) -> usize
    requires { at + 25 ≤ length out.old }
    ensures { Written out.old at (end_line number) result out.new }
{
    let n = put(b"end ", at, out);
    let n = put_decimal(number, n, out);
    put(b"\n", n, out)
}
