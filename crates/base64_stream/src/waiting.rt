// The decoded bytes that wait.
ghost use Rattle.std.specs.Prelude.{◌≡◌, ◌≤◌, ◌<◌, min, true, false, [], ◌++◌, length, take, Ok};
ghost use Rattle.base64.specs.GeneralPurpose.{decode_of};
ghost use Rattle.base64_stream.specs.Decoding.{or_no_bytes};

use base64::engine::general_purpose::GeneralPurpose;

// Those from `start` to `end`.
#[derive(Drop)]
pub(crate) struct Waiting {
    bytes: [u8; 192],
    start: usize,
    end: usize,
    ghost ordered: { start ≤ end },
    ghost within: { end ≤ 192 },
}

impl Waiting {
    ghost use Rattle.base64_stream.specs.Held.{waiting_items};

    pub(crate) fn new() -> Waiting
        ensures { waiting_items result ≡ [] }
    {
        Waiting {
            bytes: [0; 192],
            start: 0,
            end: 0,
        }
    }

    pub(crate) fn len(&self) -> usize
        ensures { result ≡ length (waiting_items self.now) }
    {
        self.end - self.start
    }

    pub(crate) fn is_empty(&self) -> bool
        ensures yes { result ≡ true → waiting_items self.now ≡ [] }
        ensures no { result ≡ false → 0 < length (waiting_items self.now) }
    {
        self.start == self.end
    }

    // Decodes this text, in place of what waits. Returns `false`, and then nothing waits, if the engine does not decode it.
    pub(crate) fn decode(&mut self, engine: &GeneralPurpose, text: &[u8]) -> bool
        requires { length text.now ≤ 256 }
        ensures yes { result ≡ true → decode_of engine.now text.now ≡ Ok (waiting_items self.new) }
        ensures no { result ≡ false → (or_no_bytes (decode_of engine.now text.now) ≡ []) × (waiting_items self.new ≡ []) }
    {
        self.start = 0;
        match engine.decode_slice_unchecked(text, &mut self.bytes) {
            Ok(n) => {
                self.end = n;
                true
            }
            Err(_) => {
                self.end = 0;
                false
            }
        }
    }

    // Gives the first bytes, as many as fit, and returns their number. The others stay.
    pub(crate) fn give(&mut self, buf: &mut [u8]) -> usize
        ensures count { result ≡ min (length buf.old) (length (waiting_items self.old)) }
        ensures bytes { waiting_items self.old ≡ take result buf.new ++ waiting_items self.new }
    {
        let n = buf.len().min(self.end - self.start);
        buf[..n].copy_from_slice(&self.bytes[self.start..self.start + n]);
        self.start += n;
        n
    }
}
