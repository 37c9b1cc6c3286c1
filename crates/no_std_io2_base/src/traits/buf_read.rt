// [`BufRead`], a reader that lends the bytes in its buffer.
ghost use Rattle.std.specs.Prelude.{◌≡◌, ◌≤◌, length, false};
ghost use types.Logic.{sem};
ghost use Rattle.std.specs.Io.BufRead.{Rests};
ghost use Rattle.no_std_io2_base.specs.BufRead.{FillBufLaw, AfterLoan, ReadUntilLaw, SkipUntilLaw, ReadLineLaw};
ghost use Rattle.no_std_io2_base.specs.Read.{ConsumeLaw};
ghost use Rattle.no_std_io2_base.specs.inner.Iterators.{split_reader, split_delim, split_is_ended, lines_reader, lines_is_ended};

use super::lines::Lines;
use super::pieces::find_piece;
use super::read::Read;
use super::split::Split;
use super::strings::{append_text, put_back, take_bytes};
use crate::error::Result;
use crate::impls::append;
use std::alloc::{Allocator, Global};

/// A reader with a buffer, whose bytes it lends. Follows Rust's `std::io::BufRead`.
///
/// ```rust
/// let mut r = Cursor::new(*b"abc");
/// assert!(rt; r.fill_buf()? == b"abc".as_slice());
/// r.consume(1);
/// assert!(rt; r.fill_buf()? == b"bc".as_slice());
/// ```
pub trait BufRead: Read {
    /// Lends the held bytes. If some bytes are held already, nothing changes. If none are, it first
    /// reads once. An empty slice means the end. Follows `std::io::BufRead::fill_buf`.
    ///
    /// # Errors
    /// Returns the device's error, also an interruption, if the read fails; no byte was then taken.
    /// If bytes are held, there is no error.
    fn fill_buf(&mut self) -> Result<&[u8]>
        ensures law { FillBufLaw ⟦<Self as Read>⟧ self.old result }
        ensures* after_borrow { sem 𝓛 (Rests Self.row self.entry (λ new. AfterLoan ⟦<Self as Read>⟧ self.old result new)) };

    /// Drops the first `amount` of the held bytes, at most all of them. Follows `std::io::BufRead::consume`.
    fn consume(&mut self, amount: usize)
        requires { amount ≤ length (Self.held self.old) }
        ensures law { ConsumeLaw ⟦<Self as Read>⟧ self.old amount self.new };

    /// Appends the bytes up to and including the first `delim`, and returns their number. If there is no
    /// `delim`, it appends all bytes that are left. 0 means the end. It ignores interruptions. If `buf` has
    /// room for these bytes, it never fails for lack of memory. Follows `std::io::BufRead::read_until`.
    ///
    /// # Errors
    /// Returns the first fault that comes before a `delim`; the reader is then right after it.
    /// Returns `OutOfMemory` if `buf` could not grow; the bytes that needed the room are not taken.
    /// After either error, `buf` has its old content, followed by the bytes that were taken. Never
    /// returns `Interrupted`.
    ///
    /// ```rust
    /// let mut r = Cursor::new(*b"key=value");
    /// let mut key = Vec::<u8>::new(rt.alloc());
    /// assert!(rt; r.read_until(b'=', &mut key)? == 4);
    /// assert!(rt; key.as_slice() == b"key=".as_slice());
    /// ```
    #[tactic(auto, using(crate::proofs::PieceLoops::until_none))]
    fn read_until<A: Allocator>(&mut self, delim: u8, buf: &mut Vec<u8, A>) -> Result<usize>
    where
        Self: Sized,
        ensures law { ReadUntilLaw ⟦<Self as Read>⟧ self.old delim buf.old result buf.new self.new }
    {
        let start = buf.len();
        'pieces: loop {
            match self.fill_buf() {
                Ok(lent) => {
                    let (len, is_whole) = find_piece(lent, delim);
                    append(buf, &lent[..len])?;
                    self.consume(len);
                    if is_whole {
                        return Ok(buf.len() - start);
                    }
                }
                Err(e) if e.is_interrupted() => {}
                Err(e) => return Err(e),
            }
        }
    }

    /// Skips the bytes up to and including the first `delim`, and returns their number, or `usize::MAX`
    /// if there are more. If there is no `delim`, it skips all bytes that are left. 0 means the end. It
    /// ignores interruptions, and allocates nothing. Follows `std::io::BufRead::skip_until`.
    ///
    /// # Errors
    /// Returns the first fault that comes before a `delim`; the reader is then right after it.
    /// Never returns `Interrupted`.
    ///
    /// ```rust
    /// let mut r = Cursor::new(*b"key=value");
    /// assert!(rt; r.skip_until(b'=')? == 4);
    /// assert!(rt; r.fill_buf()? == b"value".as_slice());
    /// ```
    #[tactic(auto, using(crate::proofs::PieceLoops::skip_none))]
    final fn skip_until(&mut self, delim: u8) -> Result<usize>
    where
        Self: Sized,
        ensures law { SkipUntilLaw ⟦<Self as Read>⟧ self.old delim result self.new }
    {
        let mut skipped = 0usize;
        'pieces: loop {
            match self.fill_buf() {
                Ok(lent) => {
                    let (len, is_whole) = find_piece(lent, delim);
                    self.consume(len);
                    skipped = skipped.saturating_add(len);
                    if is_whole {
                        return Ok(skipped);
                    }
                }
                Err(e) if e.is_interrupted() => {}
                Err(e) => return Err(e),
            }
        }
    }

    /// Appends the next line to `buf`, with its newline, and returns the number of its bytes: 0
    /// means the end. The last line may have no newline. It ignores interruptions. If the line is
    /// lent whole and `buf` has room for it, it is appended at once. Any other is read by
    /// `read_until` into the memory of `buf`, behind its bytes. The capacity of `buf` never shrinks.
    /// Follows `std::io::BufRead::read_line`.
    ///
    /// # Errors
    /// Returns `InvalidData` if the line is not UTF-8; `buf` is unchanged, and the line is taken.
    /// Returns the first fault of the reader; the bytes before it are appended if they are UTF-8,
    /// and else `buf` is unchanged. After `OutOfMemory`, also one of the device's own, `buf` is
    /// unchanged, and the bytes that this call has taken are lost. Never returns `Interrupted`.
    ///
    /// ```rust
    /// let mut r = Cursor::new(*b"one\ntwo");
    /// let mut line = String::new(rt.alloc());
    /// assert!(rt; r.read_line(rt.alloc(), &mut line)? == 4);
    /// assert!(rt; line.as_str() == "one\n");
    /// assert!(rt; r.read_line(rt.alloc(), &mut line)? == 3);
    /// assert!(rt; line.as_str() == "one\ntwo");
    /// ```
    fn read_line(&mut self, alloc: Global, buf: &mut String) -> Result<usize>
    where
        Self: Sized,
        ensures law { ReadLineLaw ⟦<Self as Read>⟧ self.old buf.old result buf.new self.new }
    {
        match self.fill_buf() {
            Ok(lent) => {
                let (len, is_whole) = find_piece(lent, b'\n');
                if is_whole && append_text(buf, &lent[..len]) {
                    self.consume(len);
                    return Ok(len);
                }
            }
            Err(e) if e.is_interrupted() => {}
            Err(e) => return Err(e),
        }
        let start = buf.len();
        let mut bytes = take_bytes(alloc, buf);
        let read = self.read_until(b'\n', &mut bytes);
        put_back(buf, bytes, start, read)
    }

    /// Turns this reader into an iterator over the pieces of its bytes, cut after each `delim` and without it.
    /// Each item is a vector from `alloc`, or an error, which is the last item. Follows `std::io::BufRead::split`.
    ///
    /// ```rust
    /// let mut lens = Vec::<usize>::new(rt.alloc());
    /// 'pieces: for piece in Cursor::new(*b"ab,,c").split(rt.alloc(), b',') {
    ///     lens.push(piece?.len())?;
    /// }
    /// assert!(rt; lens.as_slice() == [2, 0, 1].as_slice());
    /// ```
    final fn split(self, alloc: Global, delim: u8) -> Split<Self>
    where
        Self: Sized,
        ensures reader { split_reader result ≡ self }
        ensures delim { split_delim result ≡ delim }
        ensures fresh { split_is_ended result ≡ false }
    {
        Split::new(self, alloc, delim)
    }

    /// Turns this reader into an iterator over the lines of its text, without their line ends. Each item
    /// is a string from `alloc`, or an error, which is the last item. Follows `std::io::BufRead::lines`.
    ///
    /// ```rust
    /// let mut text = String::new(rt.alloc());
    /// 'lines: for line in Cursor::new(*b"one\r\ntwo\n").lines(rt.alloc()) {
    ///     text.push_str(line?.as_str())?;
    /// }
    /// assert!(rt; text.as_str() == "onetwo");
    /// ```
    final fn lines(self, alloc: Global) -> Lines<Self>
    where
        Self: Sized,
        ensures reader { lines_reader result ≡ self }
        ensures fresh { lines_is_ended result ≡ false }
    {
        Lines::new(self, alloc)
    }
}
