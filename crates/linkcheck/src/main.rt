// Reads records on standard input and prints a line for each, and a last line with their number (01, "Records on standard input").
// A turn reads until the input shows a record, and answers it by `records::step::step`. Lines are kept until there is no room for
// another one or the program has to wait for input. A read that fails counts as the end of the input; a write that fails ends the
// run.
#![tactic(auto)]

ghost use Rattle.std.specs.Prelude.{◌≡◌, ◌≤◌, cond, false, length, IfOk, IfErr};
ghost use Rattle.records.specs.Steps.{line_room};
ghost use Rattle.linkcheck.specs.Turns.{Places, flushed, has_room, waits, RoomMade, Filled, Ready, Unwritten, Wiped, AnswerRoom, Answered};

use std::io;
use std::io::{Read, Write};

// The room that the longest line takes, `line_room`.
const LINE: usize = 18518;

// Where the run stands.
#[derive(Clone, Copy)]
struct State {
    // What was read and is left stands in the input's buffer from `from` to `to`.
    from: usize,
    to: usize,
    // Whether the input may have more.
    more: bool,
    // How many records have been answered.
    done: usize,
    // How many bytes of the output's buffer are to be written.
    at: usize,
    // Whether reading ends.
    ended: bool,
}

// What a run reads and writes in, and lends to its calls.
#[derive(Drop)]
struct Buffers {
    input: [u8; 65536],
    out: [u8; 65536],
    first: [u8; 4096],
    second: [u8; 5120],
    work: [u8; 65536],
}

// Writes what the output has.
#[tactic(auto, unfolding(crate::specs::Turns::flushed))]
fn flush<W: Write>(s: State, writer: &mut W, out: &[u8]) -> io::Result<State>
    requires { s.at ≤ length out.now }
    ensures { IfOk result (λ r. r ≡ flushed s false) }
{
    writer.write_all(&out[..s.at])?;
    Ok(State {
        at: 0,
        ended: false,
        ..s
    })
}

// Reads until the input shows a record, or ends.
fn fill<R: Read>(s: State, reader: &mut R, input: &mut [u8]) -> State
    requires { (s.from ≤ s.to) × (s.to ≤ length input.old) }
    ensures { Filled s input.old result input.new }
{
    records::window::to_front(input, s.from, s.to);
    let mut to = s.to - s.from;
    let more = 'reads: loop {
        if records::window::shows_record(&input[..to]) {
            break true;
        }
        let count = reader.read(&mut input[to..]).unwrap_or(0);
        if count == 0 {
            break false;
        }
        to += count;
    };
    State {
        from: 0,
        to,
        more,
        ..s
    }
}

// Sees to it that the output has room for a line.
fn make_room<W: Write>(s: State, writer: &mut W, out: &[u8]) -> io::Result<State>
    requires { (s.at ≤ length out.now) × (line_room ≤ length out.now) }
    ensures ok { IfOk result (λ r. RoomMade s out.now r) }
    ensures ended { IfOk result (λ r. r.ended ≡ cond (has_room s out.now) s.ended false) }
    ensures err { IfErr result (λ e. has_room s out.now ≡ false) }
{
    let left = out.len() - s.at;
    if LINE <= left {
        return Ok(s);
    }
    flush(s, writer, out)
}

// Whether the program has to wait for input.
#[tactic(auto, unfolding(crate::specs::Turns::window_of))]
fn waits(s: State, input: &[u8]) -> bool
    requires { (s.from ≤ s.to) × (s.to ≤ length input.now) }
    ensures { result ≡ waits s input.now }
{
    s.more && !records::window::shows_record(&input[s.from..s.to])
}

// Sees to it that the input shows a record, where it has one, and that the output has room for a line.
fn ready<R: Read, W: Write>(
    s: State,
    reader: &mut R,
    writer: &mut W,
    input: &mut [u8],
    out: &[u8],
) -> io::Result<State>
    requires { Places s input.old out.now }
    ensures ok { IfOk result (λ r. Ready s input.old out.now r input.new) }
    ensures ended { IfOk result (λ r. r.ended ≡ cond (waits s input.old) false (cond (has_room s out.now) s.ended false)) }
    ensures err { IfErr result (λ e. Unwritten s input.old out.now input.new) }
{
    if !waits(s, input) {
        return make_room(s, writer, out);
    }
    // Where the write failed the run ends all the same only once the input shows a record, or ends.
    let written = flush(s, writer, out);
    let filled = fill(s, reader, input);
    written?;
    Ok(State {
        at: 0,
        ended: false,
        ..filled
    })
}

// Answers the record that the input shows. The buffers are lent one by one: of `Buffers` whole the contract would also have to say that
// the input stays, and how long the others are.
fn answer(
    s: State,
    input: &[u8],
    out: &mut [u8],
    first: &mut [u8],
    second: &mut [u8],
    work: &mut [u8],
) -> State
    requires { AnswerRoom s input.now out.old first.old second.old work.old }
    ensures { Answered s input.now out.old first.old second.old work.old
        result out.new first.new second.new work.new }
{
    let window = &input[s.from..s.to];
    let r = records::step::step(s.done, window, s.at, out, first, second, work);
    State {
        from: s.from + r.consumed,
        done: r.done,
        at: r.at,
        ended: r.ended,
        ..s
    }
}

// Answers the records, one after another, and writes the last line.
fn run<R: Read, W: Write>(reader: &mut R, writer: &mut W, b: &mut Buffers) -> io::Result<()>
    ensures { Wiped b.old.work b.new.work }
{
    let mut s = State {
        from: 0,
        to: 0,
        more: true,
        done: 0,
        at: 0,
        ended: false,
    };
    'turns: while !s.ended {
        let r = ready(s, reader, writer, &mut b.input, &b.out)?;
        s = answer(
            r,
            &b.input,
            &mut b.out,
            &mut b.first,
            &mut b.second,
            &mut b.work,
        );
    }
    let last = flush(s, writer, &b.out)?;
    let end = lines::put_end(last.done, 0, &mut b.out);
    writer.write_all(&b.out[..end])
}

fn main(rt: HostRuntime) {
    let mut reader = rt.stdin();
    let mut writer = rt.stdout();
    let mut buffers = Buffers {
        input: [0; 65536],
        out: [0; 65536],
        first: [0; 4096],
        second: [0; 5120],
        work: [0; 65536],
    };
    // A write that fails ends the run without a word: nothing is left to write it to.
    let _ = run(&mut reader, &mut writer, &mut buffers);
}
