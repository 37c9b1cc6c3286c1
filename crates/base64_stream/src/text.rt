// The characters that were read and not decoded yet.
ghost use Rattle.std.specs.Prelude.{◌≡◌, ◌≤◌, [], length, drop};
ghost use Rattle.no_std_io2.specs.inner.Buffer.{ReadsOn};

use no_std_io2::io::{Read, Result};

// Those from `start` to `end`.
#[derive(Drop)]
pub(crate) struct Text {
    bytes: [u8; 256],
    start: usize,
    end: usize,
    ghost ordered: { start ≤ end },
    ghost in_range: { end ≤ 256 },
}

impl Text {
    ghost use Rattle.base64_stream.specs.Held.{GathersText, text_items};

    pub(crate) fn new() -> Text
        ensures { text_items result ≡ [] }
    {
        Text {
            bytes: [0; 256],
            start: 0,
            end: 0,
        }
    }

    pub(crate) fn len(&self) -> usize
        ensures len { result ≡ length (text_items self.now) }
        ensures bound { result ≤ 256 }
    {
        self.end - self.start
    }

    pub(crate) fn as_slice(&self) -> &[u8]
        ensures value { result.now ≡ text_items self.now }
        ensures bound { length result.now ≤ 256 }
    {
        &self.bytes[self.start..self.end]
    }

    pub(crate) fn consume(&mut self, n: usize)
        requires { n ≤ length (text_items self.old) }
        ensures { text_items self.new ≡ drop n (text_items self.old) }
    {
        self.start += n;
    }

    // Moves the characters to the front.
    fn move_down(&mut self)
        ensures same { text_items self.new ≡ text_items self.old }
        ensures start { self.new.start ≡ 0 }
    {
        self.bytes.copy_within(self.start..self.end, 0);
        self.end -= self.start;
        self.start = 0;
    }

    // Reads once into all the room behind the characters, which are first moved to the front.
    pub(crate) fn read_on<R: Read>(&mut self, from: &mut R) -> Result<usize>
        ensures { ReadsOn R.Read 256 from.old (text_items self.old) result (text_items self.new) from.new }
    {
        self.move_down();
        let all = &mut self.bytes[..];
        match from.read(&mut all[self.end..]) {
            Ok(n) => {
                self.end += n;
                Ok(n)
            }
            Err(e) => Err(e),
        }
    }

    // Reads until there are four characters, and returns `true`, or up to the end. Interruptions are ignored.
    pub(crate) fn gather<R: Read>(&mut self, from: &mut R) -> Result<bool>
        ensures { GathersText R.Read from.old (text_items self.old) result from.new (text_items self.new) }
    {
        'reads: while self.len() < 4 {
            match self.read_on(from) {
                Ok(0) => return Ok(false),
                Ok(_) => {}
                Err(e) if e.is_interrupted() => {}
                Err(e) => return Err(e),
            }
        }
        Ok(true)
    }
}
