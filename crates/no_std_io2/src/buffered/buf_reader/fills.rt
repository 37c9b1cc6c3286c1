// `fill_to`, which reads until enough bytes are held.
ghost use Rattle.std.specs.Prelude.{◌≡◌, ◌≤◌};
ghost use Rattle.no_std_io2_base.specs.Takes.{KeepsContent};
ghost use Rattle.no_std_io2.specs.inner.BufReader.{ReaderIsSound};
ghost use Rattle.no_std_io2.specs.BufReader.{FillsTo};

use super::BufReader;
use no_std_io2_base::error::Result;
use no_std_io2_base::traits::{Read, Stored};

impl<R: Read, const S: usize> BufReader<R, S> {
    /// Reads until `n` bytes are held, and returns `true`. Returns `false` if the end comes first. `n` is at most `S`.
    /// It reads into all the room after the held bytes, and ignores interruptions. If `n` are held already, it
    /// makes no call and changes nothing; if it reads, no byte lies [`behind`](BufReader::behind).
    /// [`buffer`](BufReader::buffer) shows the held bytes, so a record that is at most `S` bytes long can be taken
    /// whole or not at all. Like `std::io::BufReader::peek`, which lends the bytes.
    ///
    /// # Errors
    /// Returns the inner reader's first fault. The bytes before it are held, and the same call continues.
    ///
    /// ```rust
    /// let mut r = BufReader::<_, 4>::new(Cursor::new(*b"abcde"));
    /// assert!(rt; r.fill_to(2)?);
    /// assert!(rt; r.buffer() == b"abcd".as_slice()); // one inner read, of four bytes
    /// r.consume(3);
    /// assert!(rt; !r.fill_to(3)?); // the end came first
    /// assert!(rt; r.buffer() == b"de".as_slice());
    /// ```
    pub fn fill_to(&mut self, n: usize) -> Result<bool>
        requires { n ≤ S }
        ensures fills { FillsTo R.Read n self.old result self.new }
        // Seen from outside, a told store does not change, a sound one stays sound, and turns do not rise.
        ensures store { KeepsContent (⟦<BufReader<R, S> as Stored>⟧.store self.old) (λ len was now. now ≡ was)
            (⟦<BufReader<R, S> as Stored>⟧.store self.new) }
        ensures sound { ReaderIsSound R.store self.old → ReaderIsSound R.store self.new }
        ensures turns { ⟦<BufReader<R, S> as Read>⟧.turns self.new ≤ ⟦<BufReader<R, S> as Read>⟧.turns self.old }
    {
        'reads: while self.buffer.len() < n {
            match self.buffer.read_on(&mut self.inner) {
                Ok(0) => return Ok(false),
                Ok(_) => {}
                Err(e) if e.is_interrupted() => {}
                Err(e) => return Err(e),
            }
        }
        Ok(true)
    }
}
