// One step (01, "Records on standard input"): the record at the front of a window of what is left of the input is answered, and its
// line is written.
ghost use Rattle.std.specs.Prelude.{◌≡◌, true, [], ◌+◌, ◌≤◌, ◌<◌, leb, length, Err};
ghost use Rattle.records.specs.Record.{stopped, step_by};
ghost use Rattle.records.specs.Steps.{StepRoom, LineExit, StepExit};

use crate::header;
use crate::header::Unread;
use lines::Line;

// The most records of an input.
pub const MOST_RECORDS: usize = 65535;

// What a step leaves.
#[derive(Clone, Copy)]
pub struct Stepped {
    // How many records have been answered.
    pub done: usize,
    // The place after the line in the output.
    pub at: usize,
    // How many bytes of what is left were read.
    pub consumed: usize,
    // Whether reading ends.
    pub ended: bool,
}

// Nothing more is read.
fn over(done: usize, at: usize) -> Stepped
    ensures { result ≡ record { done = done; at = at; consumed = 0; ended = true } }
{
    Stepped {
        done,
        at,
        consumed: 0,
        ended: true,
    }
}

// After a record that is answered reading goes on behind it, up to the last that is read.
fn answered(done: usize, at: usize, consumed: usize) -> Stepped
    requires { done < 65535 }
    ensures { result ≡ record { done = done + 1; at = at; consumed = consumed; ended = leb 65535 (done + 1) } }
{
    let done = done + 1;
    Stepped {
        done,
        at,
        consumed,
        ended: MOST_RECORDS <= done,
    }
}

// A refusal with no kind, after which reading ends.
fn stop(done: usize, status: u32, at: usize, out: &mut [u8]) -> Stepped
    requires { (done < 65535) × (at + 86 ≤ length out.old) }
    ensures { LineExit done (stopped status) out.old at result out.new }
{
    let done = done + 1;
    let line = Line {
        number: done,
        kind: None,
        status,
    };
    let at = line.put_refusal(at, out);
    over(done, at)
}

// No header is read: its refusal is printed; of the end of the input nothing is.
fn refuse(done: usize, unread: Unread, at: usize, out: &mut [u8]) -> Stepped
    requires { (done < 65535) × (at + 86 ≤ length out.old) }
    ensures { LineExit done (step_by [] (Err unread)) out.old at result out.new }
{
    let status = unread.number();
    match unread {
        Unread::End => over(done, at),
        Unread::Short | Unread::Unmarked | Unread::Cut => stop(done, status, at, out),
        Unread::Unknown { kind, body } => {
            let line = Line {
                number: done + 1,
                kind: Some(kind),
                status,
            };
            let at = line.put_refusal(at, out);
            answered(done, at, 6 + usize::from(body))
        }
    }
}

// Answers the record at the front of what is left, where `done` records have been answered, and writes its line from `at` on.
pub fn step(
    done: usize,
    rest: &[u8],
    at: usize,
    out: &mut [u8],
    first: &mut [u8],
    second: &mut [u8],
    work: &mut [u8],
) -> Stepped
    requires { StepRoom done at out.old first.old second.old work.old }
    ensures { StepExit done rest.now out.old at first.old second.old work.old
        result out.new first.new second.new work.new }
{
    let read = header::read_header(rest);
    let Ok(header) = read else {
        return refuse(done, read.unwrap_err(), at, out);
    };
    let end = 6 + usize::from(header.body);
    let set = u32::from(header.set);
    let number = done + 1;
    let kind = Some(header.kind);
    match record_calls::answer(header.kind, set, &rest[6..end], first, second, work) {
        Ok(output) => {
            let line = Line {
                number,
                kind,
                status: 0,
            };
            let at = line.put(&first[..output.first], &second[..output.second], at, out);
            answered(done, at, end)
        }
        Err(refusal) => {
            let line = Line {
                number,
                kind,
                status: u32::from(refusal),
            };
            let at = line.put_refusal(at, out);
            answered(done, at, end)
        }
    }
}
