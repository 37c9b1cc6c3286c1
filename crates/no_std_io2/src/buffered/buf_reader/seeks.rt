// The `impl` of `Seek` for `BufReader`.
ghost use Rattle.std.specs.Prelude.{◌≡◌, Ok, FitsSigned, SomeIff, ◌<◌, ◌^◌, ◌-ℤ◌, pos, length};
ghost use Rattle.std.specs.Int.{w64};
ghost use Rattle.no_std_io2_base.specs.inner.Seek.{WithoutPosition};
ghost use Rattle.no_std_io2_base.specs.Seek.{StreamLenLaw, SeekRelativeLaw};
ghost use Rattle.no_std_io2_base.specs.Calls.{Measured, Moved};
ghost use Rattle.no_std_io2_base.specs.Takes.{KeepsContent};
ghost use Rattle.no_std_io2.specs.BufReader.{reader_held};
ghost use Rattle.no_std_io2.specs.inner.BufferSeeks.{SeeksOnce, ReaderSeeks, ReaderMaySeek, back_by, PositionLaw};
ghost use Rattle.no_std_io2.specs.inner.BufReader.{ReaderIsSound};

use super::BufReader;
use no_std_io2_base::error::Result;
use no_std_io2_base::internal::invalid_seek;
use no_std_io2_base::traits::{Seek, SeekFrom, Stored};

// Returns `offset` minus `held`, if this fits an `i64`. It leads to the same place, counted from
// `held` bytes further on.
fn offset_behind(offset: i64, held: usize) -> Option<i64>
    requires { held < 2 ^ 63 }
    ensures { SomeIff result (FitsSigned w64 (offset -ℤ pos held)) (offset -ℤ pos held) }
{
    offset.checked_sub(held as i64)
}

impl<R: Seek, const S: usize> BufReader<R, S> {
    /// Returns the position from the start of the next byte that this reader would give. It keeps the held bytes and
    /// those that lie [`behind`](BufReader::behind), and makes one inner `stream_position`; the inner reader is ahead by
    /// the held bytes. The `stream_position` of this reader is a seek, and drops them. Like `stream_position` of
    /// `std::io::BufReader`.
    ///
    /// # Errors
    /// Returns the error of the inner `stream_position`. Returns `InvalidInput`, as a refused seek does, if the inner
    /// position is below the number of held bytes, because the inner reader was moved. After an error the buffer is as
    /// it was. Over a told store it does not fail.
    ///
    /// ```rust
    /// let mut r = BufReader::<_, 4>::new(Cursor::new(*b"abcdefgh"));
    /// r.read_exact(&mut [0u8; 3])?;
    /// assert!(rt; r.position()? == 3);
    /// assert!(rt; r.buffer() == b"d".as_slice());
    /// ```
    pub fn position(&mut self) -> Result<u64>
        ensures law { PositionLaw R.Seek self.old result self.new }
        // Seen from outside, a told store does not change, and the result is its position.
        ensures store { KeepsContent (⟦<BufReader<R, S> as Stored>⟧.store self.old) (λ len was now. (now ≡ was) × (result ≡ Ok was))
            (⟦<BufReader<R, S> as Stored>⟧.store self.new) }
        ensures sound { ReaderIsSound R.store self.old → ReaderIsSound R.store self.new }
    {
        let at = self.inner.stream_position()?;
        match at.checked_sub(self.buffer.len() as u64) {
            Some(position) => Ok(position),
            None => Err(invalid_seek()),
        }
    }

    // Seeks the inner reader, and drops the buffer if that succeeds.
    fn seek_inner(&mut self, target: SeekFrom) -> Result<u64>
        ensures { SeeksOnce R.Seek self.old target result self.new }
    {
        let at = self.inner.seek(target)?;
        self.buffer.clear();
        Ok(at)
    }

    // Seeks back to the first held byte, and drops the buffer.
    fn seek_back(&mut self) -> Result<()>
        ensures { WithoutPosition (λ answer. SeeksOnce R.Seek self.old (back_by (length (reader_held self.old))) answer self.new) result }
    {
        let held = self.buffer.len();
        self.seek_inner(SeekFrom::Current(-(held as i64)))?;
        Ok(())
    }

    // Seeks by `offset` from the user's position. The inner reader is ahead of it by the held
    // bytes. If the offset is too far back for one inner seek, this makes two.
    fn seek_current(&mut self, offset: i64) -> Result<u64>
        ensures { ReaderSeeks R.Seek self.old (SeekFrom.Current offset) result self.new }
    {
        let held = self.buffer.len();
        match offset_behind(offset, held) {
            Some(rest) => self.seek_inner(SeekFrom::Current(rest)),
            None => {
                self.seek_back()?;
                self.seek_inner(SeekFrom::Current(offset))
            }
        }
    }
}

/// Seeks the inner reader, and drops the buffer. `Current(n)` counts from the next byte that this
/// reader would give. The inner reader is ahead of that byte by the held bytes, so its seek is by `n`
/// minus their number. If this does not fit an `i64`, there are two inner seeks: back by the number of
/// held bytes, which drops them, and then by `n`. `Start` and `End` go to the inner reader. Success
/// drops the held bytes and those that lie behind; if the first or only inner seek fails, they are
/// kept. Each error is the inner reader's, with its text. Follows `std::io::Seek for BufReader`.
impl<R: Seek, const S: usize> Seek for BufReader<R, S> {
    ghost may = { ReaderMaySeek R.Seek };

    ghost sound = { ReaderIsSound R.store };

    fn seek(&mut self, pos: SeekFrom) -> Result<u64> {
        match pos {
            SeekFrom::Current(offset) => self.seek_current(offset),
            SeekFrom::Start(_) | SeekFrom::End(_) => self.seek_inner(pos),
        }
    }

    // Calls the inner reader, and leaves the buffer as it is.
    fn stream_len(&mut self) -> Result<u64>
        ensures law { StreamLenLaw ⟦<Self as Seek>⟧ self.old result self.new }

        // It is one call of this type, as its `may` says, and not the seeks of the trait's body.
        ensures own { ReaderMaySeek R.Seek self.old (Measured result) self.new }
    {
        self.inner.stream_len()
    }

    /// Moves the position by `offset` bytes. The buffer spans the bytes
    /// [`behind`](BufReader::behind) the position and the held bytes after it. If the target is
    /// within it, the inner reader is not called and the buffer is kept: forward, the next bytes
    /// are skipped; backward, the last bytes come again. Otherwise this is
    /// `seek(SeekFrom::Current(offset))`, except that it returns no position, and it drops the
    /// buffer. Follows `std::io::BufReader::seek_relative`.
    ///
    /// # Errors
    /// Returns `InvalidInput`, with the inner reader's text, if the target is below 0 or above
    /// `u64::MAX`, and else the errors of `seek`. Returns none if the target is in the buffer. After
    /// an error the position is as it was, and so is the buffer, with one exception: an offset that
    /// is too far back for one seek of the inner reader needs two, and if the first of them succeeds
    /// and the second fails, the buffer is dropped.
    fn seek_relative(&mut self, offset: i64) -> Result<()>
        ensures law { SeekRelativeLaw ⟦<Self as Seek>⟧ self.old offset result self.new }

        // It is one call of this type, as its `may` says, and not the seek of the trait's body.
        ensures own { ReaderMaySeek R.Seek self.old (Moved offset result) self.new }
    {
        if self.buffer.shift(offset) {
            return Ok(());
        }
        match self.seek_current(offset) {
            Ok(_) => Ok(()),
            Err(e) => Err(e),
        }
    }
}
