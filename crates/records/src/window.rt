// The window on the input: what was read of it and is left stands in a part of a lent buffer.
ghost use Rattle.std.specs.Prelude.{◌≡◌, ◌++◌, ◌-◌, ◌≤◌, length, take, drop};
ghost use Rattle.records.specs.Header.{shows_record};

use crate::header;

// Whether a window shows its record, so that no more of the input is needed for a step.
#[tactic(auto, unfolding(crate::specs::Header::shows_record))]
pub fn shows_record(window: &[u8]) -> bool
    ensures { result ≡ shows_record window.now }
{
    let left = window.len();
    if left < 6 {
        return false;
    }
    let body = header::body_length(window);
    !header::is_marked(window) || 8192 < body || 6 + usize::from(body) <= left
}

// Moves the part from `from` to `to` to the front of the buffer; behind it the buffer stays as it was.
pub fn to_front(buffer: &mut [u8], from: usize, to: usize)
    requires { (from ≤ to) × (to ≤ length buffer.old) }
    ensures { buffer.new ≡ take (to - from) (drop from buffer.old) ++ drop (to - from) buffer.old }
{
    buffer.copy_within(from..to, 0);
}
