// The header of a record (01, "Records on standard input"), at the front of what is left of the input.
ghost use Rattle.std.specs.Prelude.{◌≡◌, ◌≤◌, length, Err};
ghost use Rattle.records.specs.Header.{is_marked, body_length, is_cut, is_kind, read_header, header_number};

// A header that is whole: its body is there.
#[derive(Clone, Copy)]
pub struct Header {
    pub kind: u8,
    pub set: u8,
    // The length of the body.
    pub body: u16,
}

// Why no header is read.
#[derive(Clone, Copy)]
pub enum Unread {
    // 0 bytes are left: the end of the input.
    End,
    // 1 to 5 bytes are left.
    Short,
    // The first two bytes are not 4B 4E.
    Unmarked,
    // The length is over 8192, or the body is cut short.
    Cut,
    // There is no such kind; the body is there.
    Unknown { kind: u8, body: u16 },
}

impl Unread {
    // 01's number of the refusal; 0 at the end of the input, which is none.
    pub fn number(self) -> u32
        ensures { result ≡ header_number (Err self) }
    {
        match self {
            Unread::End => 0,
            Unread::Unmarked => 10,
            Unread::Short | Unread::Cut => 11,
            Unread::Unknown { .. } => 12,
        }
    }
}

// Whether the first two bytes are the mark.
pub fn is_marked(rest: &[u8]) -> bool
    requires { 2 ≤ length rest.now }
    ensures { result ≡ is_marked rest.now }
{
    rest[0] == b'K' && rest[1] == b'N'
}

// The length of the body.
pub fn body_length(rest: &[u8]) -> u16
    requires { 6 ≤ length rest.now }
    ensures { result ≡ body_length rest.now }
{
    hex_digits::pair(rest[4], rest[5])
}

// Whether a body is over the longest, or cut short by what is left.
fn is_cut(left: usize, body: u16) -> bool
    ensures { result ≡ is_cut left body }
{
    8192 < body || left < 6 + usize::from(body)
}

// Whether there is a kind of this number.
fn is_kind(kind: u8) -> bool
    ensures { result ≡ is_kind kind }
{
    matches!(kind, 1..=5)
}

// Reads the header of the record at the front.
#[tactic(auto, unfolding(crate::specs::Header::read_header))]
pub fn read_header(rest: &[u8]) -> Result<Header, Unread>
    ensures { result ≡ read_header rest.now }
{
    if rest.is_empty() {
        return Err(Unread::End);
    }
    if rest.len() < 6 {
        return Err(Unread::Short);
    }
    if !is_marked(rest) {
        return Err(Unread::Unmarked);
    }
    let kind = rest[2];
    let body = body_length(rest);
    if is_cut(rest.len(), body) {
        return Err(Unread::Cut);
    }
    if !is_kind(kind) {
        return Err(Unread::Unknown { kind, body });
    }
    Ok(Header {
        kind,
        set: rest[3],
        body,
    })
}
