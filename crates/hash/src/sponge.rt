// The sponge: a value that absorbs input in pieces of any length and, once its input is complete,
// squeezes output on from where it stopped, or skips it.
ghost use Rattle.std.specs.Prelude.{◌≡◌, ◌+◌, ◌≤◌, length};
ghost use Rattle.hash.specs.Stream.{Sound, Squeezed, fresh, permuted, ready, absorbed, finished, advanced};

use keccak::strings::xor_into;

// The string of 200 bytes, the place in its block, and the block's length. Where the place is the
// block's end, a permutation is due before the next byte. No ghost field says that it is sound: `new`
// takes any rate, and the fields are public.
#[derive(Clone, Copy)]
pub struct Sponge {
    pub bytes: [u8; 200],
    pub at: usize,
    pub rate: usize,
}

impl Sponge {
    // A sponge that has absorbed nothing, for blocks of rate bytes.
    pub fn new(rate: usize) -> Self
        ensures { result ≡ fresh rate }
    {
        Self {
            bytes: [0; 200],
            at: 0,
            rate,
        }
    }

    // The one function that permutes.
    fn permute(self) -> Self
        ensures { result ≡ permuted self }
    {
        let next = keccak::permute(self.bytes);
        Self {
            bytes: next,
            at: 0,
            ..self
        }
    }

    // The sponge with a place left in its block.
    fn ready(self) -> Self
        ensures { result ≡ ready self }
    {
        if self.at == self.rate {
            self.permute()
        } else {
            self
        }
    }

    // Absorbs a part that the block has room for.
    fn absorb_part(self, part: &[u8]) -> Self
        requires { (self.at + length part.now ≤ self.rate) × (self.rate ≤ 200) }
        ensures { result ≡ absorbed self part.now }
    {
        let mut bytes = self.bytes;
        xor_into(&mut bytes[self.at..], part);
        Self {
            bytes,
            at: self.at + part.len(),
            ..self
        }
    }

    // Absorbs more input.
    pub fn absorb(self, input: &[u8]) -> Self
        requires { Sound self }
        ensures { result ≡ absorbed self input.now }
    {
        let mut s = self;
        let mut rest = input;
        while !rest.is_empty() {
            let t = s.ready();
            let (part, later) = rest.split_at(rest.len().min(t.rate - t.at));
            s = t.absorb_part(part);
            rest = later;
        }
        s
    }

    // Completes the input: SHAKE's suffix 1111 and the padding 10*1.
    pub fn finish(self) -> Self
        requires { Sound self }
        ensures { result ≡ finished self }
    {
        let t = self.ready();
        let mut bytes = t.bytes;
        bytes[t.at] ^= 0x1f;
        bytes[t.rate - 1] ^= 0x80;
        Self {
            bytes,
            at: t.rate,
            ..t
        }
    }

    // Squeezes a part that the block still has.
    fn squeeze_part(self, part: &mut [u8]) -> Self
        requires { (self.at + length part.old ≤ self.rate) × (self.rate ≤ 200) }
        ensures { Squeezed self (length part.old) result part.new }
    {
        let end = self.at + part.len();
        part.copy_from_slice(&self.bytes[self.at..end]);
        Self { at: end, ..self }
    }

    // Fills output with the next bytes.
    pub fn squeeze(self, output: &mut [u8]) -> Self
        requires { Sound self }
        ensures { Squeezed self (length output.old) result output.new }
    {
        let mut s = self;
        // By a place in output: of a rest that is split off anew each turn a proof does not know what was written.
        let mut done = 0;
        while done < output.len() {
            let t = s.ready();
            let k = (output.len() - done).min(t.rate - t.at);
            s = t.squeeze_part(&mut output[done..done + k]);
            done += k;
        }
        s
    }

    // Passes over a part that the block still has.
    fn skip_part(self, n: usize) -> Self
        requires { self.at + n ≤ self.rate }
        ensures { result ≡ advanced self n }
    {
        Self {
            at: self.at + n,
            ..self
        }
    }

    // Passes over the next n bytes, which are written nowhere.
    pub fn skip(self, n: usize) -> Self
        requires { Sound self }
        ensures { result ≡ advanced self n }
    {
        let mut s = self;
        // No `for`: the parts differ in length.
        let mut left = n;
        while left > 0 {
            let t = s.ready();
            let k = left.min(t.rate - t.at);
            s = t.skip_part(k);
            left -= k;
        }
        s
    }
}
