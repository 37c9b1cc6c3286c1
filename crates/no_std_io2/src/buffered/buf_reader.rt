// [`BufReader`], a buffer in front of a reader.
ghost use Rattle.std.specs.Prelude.{◌≡◌, ◌<◌, ◌≤◌, ◌^◌, length};
ghost use Rattle.std.specs.Borrow.{Lends, sem};

use super::buffer::Buffer;
use no_std_io2_base::traits::{Read, Stored};
use std::fmt::{self, Debug, Formatter};

mod fills;
mod lends;
mod reads;
mod seeks;

/// Puts a buffer of `S` bytes in front of a reader, so that many small reads make few inner reads.
/// Follows Rust's `std::io::BufReader`, with its buffer in the value itself.
///
/// A call of `read` or `fill_buf` makes at most one inner read, and none if bytes are held. If none
/// are held, a read into at least `S` bytes goes straight to the inner reader, and a read into an
/// empty buffer fills this reader's buffer and may return the inner reader's error.
///
/// ```rust
/// let mut r = BufReader::<_, 4>::new(Cursor::new(*b"abcdefgh"));
/// let mut two = [0u8; 2];
/// r.read_exact(&mut two)?; // one inner read, of four bytes
/// assert!(rt; r.buffer() == b"cd".as_slice());
/// assert!(rt; r.behind() == b"ab".as_slice());
/// r.seek_relative(-1)?; // inside the buffer: the inner reader is left alone
/// assert!(rt; r.buffer() == b"bcd".as_slice());
/// ```
#[derive(Drop)]
pub struct BufReader<R, const S: usize> {
    inner: R,
    buffer: Buffer<S>,
    ghost some_room: { 0 < S },
    ghost in_memory: { S < 2 ^ 63 },
}

impl<R: Read, const S: usize> BufReader<R, S> {
    ghost use Rattle.no_std_io2_base.specs.Takes.{to_come};
    ghost use Rattle.no_std_io2_base.specs.Takes.{tells};
    ghost use Rattle.no_std_io2.specs.BufReader.{reader_inner};
    ghost use Rattle.no_std_io2.specs.inner.BufReader.{HasNoBuffer};

    /// Puts an empty buffer of `S` bytes in front of `inner`. `S` is from 1 to 2^63 - 1.
    /// Follows `std::io::BufReader::with_capacity`.
    pub fn new(inner: R) -> BufReader<R, S>
        requires some_room { 0 < S }
        requires in_memory { S < 2 ^ 63 }
        ensures inner { reader_inner result ≡ inner }
        ensures empty { HasNoBuffer result }
        ensures events { to_come (tells ⟦<BufReader<R, S> as Read>⟧ result) ≡ to_come (tells R.Read inner) }
    {
        BufReader {
            inner,
            buffer: Buffer::new(),
        }
    }
}

impl<R, const S: usize> BufReader<R, S> {
    ghost use Rattle.no_std_io2.specs.contracts.buffered.buf_reader.BufReader.{the_row as reader-row};
    ghost use Rattle.no_std_io2.specs.BufReader.{reader_held, reader_behind, reader_inner};
    ghost use Rattle.no_std_io2.specs.inner.BufReader.{reader_with_inner};

    /// Gets a reference to the inner reader, which is ahead of this one by the held
    /// bytes. Follows `std::io::BufReader::get_ref`.
    ///
    /// ```rust
    /// let mut r = BufReader::<_, 4>::new(Cursor::new(*b"abcdefgh"));
    /// assert!(rt; r.capacity() == 4);
    /// r.read_exact(&mut [0u8; 2])?;
    /// assert!(rt; r.get_ref().position() == 4); // ahead by the two bytes held
    /// r.get_mut().set_position(6);
    /// assert!(rt; r.buffer() == b"cd".as_slice()); // what is held stays
    /// ```
    pub fn get_ref(&self) -> &R
        ensures { result.now ≡ reader_inner self.now }
    {
        &self.inner
    }

    /// Gets a mutable reference to the inner reader. The held bytes stay. Follows `std::io::BufReader::get_mut`.
    pub fn get_mut(&mut self) -> &mut R
        ensures value { result.now ≡ reader_inner self.old }
        ensures* writes_back { sem 𝓛 (Lends (reader-row R.row S.row) R.row self.entry result (reader_with_inner self.old)) }
    {
        &mut self.inner
    }

    /// Returns the held bytes, at most `S`: they were read and not yet given. Follows `std::io::BufReader::buffer`.
    pub fn buffer(&self) -> &[u8]
        ensures value { result.now ≡ reader_held self.now }
        ensures bound { length result.now ≤ S }
    {
        self.buffer.as_slice()
    }

    /// Returns the bytes of the buffer that this reader has already given, right before the held ones.
    /// [`seek_relative`](BufReader::seek_relative) can go back over them without a seek of the inner reader. An inner
    /// read drops them, whatever it returns; so do a `read_to_end` and a seek that drops the buffer. Rust's `BufReader`
    /// keeps such bytes too, but does not show them.
    pub fn behind(&self) -> &[u8]
        ensures value { result.now ≡ reader_behind self.now }
        ensures bound { length result.now ≤ S }
    {
        self.buffer.behind()
    }

    /// Returns the buffer's size in bytes, `S`. Follows `std::io::BufReader::capacity`.
    pub fn capacity(&self) -> usize
        ensures { result ≡ S }
    {
        S
    }

    /// Returns the inner reader. The held bytes are lost. Follows `std::io::BufReader::into_inner`.
    ///
    /// ```rust
    /// let mut r = BufReader::<_, 4>::new(Cursor::new(*b"abcdefgh"));
    /// r.read_exact(&mut [0u8; 2])?;
    /// let inner = r.into_inner(); // `cd`, which was held, is lost
    /// assert!(rt; inner.position() == 4);
    /// ```
    pub fn into_inner(self) -> R
        ensures { result ≡ reader_inner self }
    {
        self.inner
    }
}

// Tells the inner reader's store, at a position that is lower by the held bytes, if these are its bytes there.
impl<R: Stored, const S: usize> Stored for BufReader<R, S> {
    ghost use Rattle.no_std_io2.specs.BufReader.{reader_store};

    ghost store = { reader_store R.store };
}

/// Shows the inner reader, and the buffer as `3/8` if 3 bytes are held and 8 can be.
impl<R: Debug, const S: usize> Debug for BufReader<R, S> {
    fn fmt<W: fmt::Write>(&self, f: &mut Formatter<W>) -> fmt::Result {
        let held = self.buffer.len();
        f.debug_struct("BufReader")
            .field("reader", &self.inner)
            .field("buffer", &format_args!("{held}/{S}"))
            .finish()
    }
}
