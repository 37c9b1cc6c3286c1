// [`Seek`], a stream with a position that can be moved, and [`SeekFrom`], the target of a seek.
ghost use Rattle.std.specs.Prelude.{ℕ, IfOk, IfErr};
ghost use Rattle.no_std_io2_base.specs.inner.Errors.{IsInvalidSeek};
ghost use Rattle.no_std_io2_base.specs.Seek.{IsTarget};

use super::stored::Stored;
use crate::error::{Result, invalid_seek};

/// The target of a seek: a number of bytes from the start, from the end or from the current
/// position. Follows Rust's `std::io::SeekFrom`.
///
/// ```rust
/// let mut r = Cursor::new(*b"abcde");
/// assert!(rt; r.seek(SeekFrom::Start(1))? == 1);
/// assert!(rt; r.seek(SeekFrom::Current(2))? == 3);
/// assert!(rt; r.seek(SeekFrom::End(-1))? == 4);
/// assert!(rt; r.seek(SeekFrom::Current(-5)).is_err()); // before the start: it stays at 4
/// ```
#[derive(Clone, Copy, Debug, PartialEq, Eq)]
pub enum SeekFrom {
    /// This position, from 0 on.
    Start(u64),
    /// The length of the content, plus this offset.
    End(i64),
    /// The current position, plus this offset.
    Current(i64),
}

impl SeekFrom {
    /// Returns the position that a seek of a content of `len` bytes leads to, counted from the
    /// start, if the position is now `position`. A device that has a content can so write its
    /// `seek` in three lines. Rust's `std::io` has no such call.
    ///
    /// # Errors
    /// Returns `InvalidInput`, `invalid seek to a negative or overflowing position`, if that position
    /// would be below 0 or above `u64::MAX`.
    ///
    /// ```rust
    /// assert!(rt; SeekFrom::Start(9).target(5, 2)? == 9); // past the end
    /// assert!(rt; SeekFrom::End(-1).target(5, 2)? == 4);
    /// assert!(rt; SeekFrom::Current(1).target(5, 2)? == 3);
    /// assert!(rt; SeekFrom::Current(-3).target(5, 2).is_err());
    /// ```
    pub fn target(self, len: u64, position: u64) -> Result<u64>
        ensures is { IfOk result (IsTarget len position self) }
        ensures none { IfErr result (λ e. ((n : ℕ) → IsTarget len position self n → ⊥) × IsInvalidSeek e) }
    {
        let (base, offset) = match self {
            SeekFrom::Start(at) => (at, 0),
            SeekFrom::End(offset) => (len, offset),
            SeekFrom::Current(offset) => (position, offset),
        };
        match base.checked_add_signed(offset) {
            Some(at) => Ok(at),
            None => Err(invalid_seek()),
        }
    }
}

/// A stream with a position that can be moved. Follows Rust's `std::io::Seek`.
pub trait Seek: Stored {
    ghost use Rattle.no_std_io2_base.specs.Calls.{SeekCall};
    ghost use Rattle.no_std_io2_base.specs.Seek.{SeekLaw, StreamPositionLaw, RewindLaw, StreamLenLaw, SeekRelativeLaw};

    // What one call with its result may do to the stream. By default it may do anything.
    ghost may: { Self → SeekCall → Self → Type 0 } = { λ _ _ _. Unit {0} };

    // Whether all bytes that a `seek_relative` can go back over without a call of the device are those of the store.
    // By default they always are.
    ghost sound: { Self → Type 0 } = { λ _. Unit {0} };

    /// Moves to `pos`, which may be past the end, and returns the new position, counted from the
    /// start. The content of a told store does not change. Follows `std::io::Seek::seek`.
    ///
    /// # Errors
    /// Returns `InvalidInput`, `invalid seek to a negative or overflowing position`, if a store is
    /// told and the target is below 0 or above `u64::MAX`; the store is then as it was. If no store
    /// is told, returns the device's error.
    fn seek(&mut self, pos: SeekFrom) -> Result<u64>
        ensures law { SeekLaw ⟦<Self as Seek>⟧ self.old pos result self.new };

    /// Returns the position from the start. Follows `std::io::Seek::stream_position`.
    ///
    /// # Errors
    /// Returns the error of `seek(SeekFrom::Current(0))` if that fails; over a told store
    /// it does not.
    ///
    /// ```rust
    /// let mut r = Cursor::new(*b"abcde");
    /// r.seek(SeekFrom::Start(3))?;
    /// assert!(rt; r.stream_position()? == 3);
    /// assert!(rt; r.stream_len()? == 5);
    /// r.rewind()?;
    /// assert!(rt; r.stream_position()? == 0);
    /// ```
    fn stream_position(&mut self) -> Result<u64>
        ensures law { StreamPositionLaw ⟦<Self as Seek>⟧ self.old result self.new }
    {
        self.seek(SeekFrom::Current(0))
    }

    /// Moves to the start. Follows `std::io::Seek::rewind`.
    ///
    /// # Errors
    /// Returns the error of `seek(SeekFrom::Start(0))` if that fails; over a told store
    /// it does not.
    fn rewind(&mut self) -> Result<()>
        ensures law { RewindLaw ⟦<Self as Seek>⟧ self.old result self.new }
    {
        self.seek(SeekFrom::Start(0))?;
        Ok(())
    }

    /// Returns the length of the content in bytes. It makes a `stream_position`, a seek to the end
    /// and, if the position was elsewhere, a seek back. Follows `std::io::Seek::stream_len`.
    ///
    /// # Errors
    /// Returns the first error of these seeks; the position may then be the end. Over a told store
    /// none fails, and the store is as it was.
    fn stream_len(&mut self) -> Result<u64>
        ensures law { StreamLenLaw ⟦<Self as Seek>⟧ self.old result self.new }
    {
        let old = self.stream_position()?;
        let end = self.seek(SeekFrom::End(0))?;
        if old != end {
            self.seek(SeekFrom::Start(old))?;
        }
        Ok(end)
    }

    /// Moves by `offset` bytes from the current position, by a `seek(SeekFrom::Current(offset))`,
    /// and returns no position. A [`BufReader`] has a call of this name that stays in its buffer if
    /// it can. Follows `std::io::Seek::seek_relative`.
    ///
    /// # Errors
    /// Returns the error of `seek`: over a told store `InvalidInput` if there is no such place; the
    /// store is then as it was.
    ///
    /// ```rust
    /// let mut r = Cursor::new(*b"abcde");
    /// r.seek_relative(3)?;
    /// assert!(rt; r.position() == 3);
    /// assert!(rt; r.seek_relative(-4).is_err()); // below 0: it stays
    /// assert!(rt; r.position() == 3);
    /// ```
    fn seek_relative(&mut self, offset: i64) -> Result<()>
        ensures law { SeekRelativeLaw ⟦<Self as Seek>⟧ self.old offset result self.new }
    {
        self.seek(SeekFrom::Current(offset))?;
        Ok(())
    }
}
