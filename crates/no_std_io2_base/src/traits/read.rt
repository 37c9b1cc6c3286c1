// [`Read`], a source of bytes.
ghost use Rattle.std.specs.Prelude.{◌≡◌, ℕ, false, List, [], Option, None};
ghost use Rattle.no_std_io2_base.specs.inner.Chain.{chain_first, chain_second, chain_is_done, chain_events, both_to_come};
ghost use Rattle.no_std_io2_base.specs.Takes.{tells};
ghost use Rattle.no_std_io2_base.specs.Read.{ReadLaw, ReadExactLaw, ReadFullLaw, ReadToEndLaw, ReadToStringLaw};
ghost use Rattle.no_std_io2_base.specs.Calls.{ReadCall};
ghost use Rattle.no_std_io2_base.specs.inner.Iterators.{bytes_reader};
ghost use Rattle.no_std_io2_base.specs.inner.Take.{limit_inner, limit_left, limit_set, limit_events, cut_to_come};
ghost use Rattle.no_std_io2_base.specs.Events.{Event};
ghost use Rattle.no_std_io2_base.specs.Takes.{to_come};

use super::bytes::Bytes;
use super::chain::Chain;
use super::room::{LEAST_ROOM, open_room, reserve_first};
use super::stored::Stored;
use super::strings::{put_back, take_bytes};
use super::take::Take;
use crate::error::{Result, failed_to_fill};
use std::alloc::{Allocator, Global};

/// A source of bytes. Follows Rust's `std::io::Read`.
///
/// A reader may tell the *events* that are to come: bytes and errors, in order. Only contracts see
/// them. Each call then takes events from the front of this list, and no others. It also tells a
/// number of *turns*, which each call that gives bytes or an error lowers, so that every loop of
/// reads ends.
///
/// ```rust
/// let mut r = Cursor::new(*b"abc");
/// let mut buf = [0u8; 2];
/// assert!(rt; r.read(&mut buf)? == 2); // `ab`
/// assert!(rt; r.read(&mut buf)? == 1); // `c`
/// assert!(rt; r.read(&mut buf)? == 0); // the end
/// ```
pub trait Read: Stored {
    // A number that no call raises. Each call that gives bytes or returns an error lowers it.
    ghost turns: { Self → ℕ };

    // The events to come, if the reader tells them. If it tells a store, they are the bytes from the
    // position on, and this member is not used.
    ghost events: { Self → Option (List Event) } = { λ _. None };

    // What one call with its result may do to the reader. By default it may do anything.
    ghost may: { Self → ReadCall → Self → Type 0 } = { λ _ _ _. Unit {0} };

    // The bytes in the buffer of a reader that lends. If it tells its events, they begin with these bytes.
    ghost held: { Self → List ℕ } = { λ _. [] };

    /// Reads some bytes into the front of `buf` and returns their number, which is at most the
    /// length of `buf`. If `buf` is not empty, `Ok(0)` means the end, and a reader that tells its
    /// events stays at its end. If `buf` is empty, nothing is read. Follows `std::io::Read::read`.
    ///
    /// # Errors
    /// Returns the device's error if it fails; no byte was then taken. After an interruption the
    /// call may be made again.
    fn read(&mut self, buf: &mut [u8]) -> Result<usize>
        ensures law { ReadLaw ⟦<Self as Read>⟧ self.old buf.old result buf.new self.new };

    /// Fills the whole of `buf`, and ignores interruptions. An empty buffer makes no call.
    /// Follows `std::io::Read::read_exact`.
    ///
    /// # Errors
    /// Returns the first fault that comes before `buf` is full; the reader is then right after it.
    /// Returns `UnexpectedEof` if the bytes end too early; then all of them are taken, except that
    /// slices and cursors take nothing. Never returns `Interrupted`.
    ///
    /// ```rust
    /// let mut r = Cursor::new(*b"abcde");
    /// let mut header = [0u8; 4];
    /// r.read_exact(&mut header)?;
    /// assert!(rt; header == *b"abcd");
    /// assert!(rt; r.read_exact(&mut header).is_err()); // one byte is left: `UnexpectedEof`
    /// ```
    fn read_exact(&mut self, buf: &mut [u8]) -> Result<()>
        ensures law { ReadExactLaw ⟦<Self as Read>⟧ self.old buf.old result buf.new self.new }
    {
        let mut at = 0;
        'reads: while at < buf.len() {
            match self.read(&mut buf[at..]) {
                Ok(0) => return Err(failed_to_fill()),
                Ok(n) => at += n,
                Err(e) if e.is_interrupted() => {}
                Err(e) => return Err(e),
            }
        }
        Ok(())
    }

    /// Fills `buf` after its first `filled` bytes, as far as there are bytes, and ignores
    /// interruptions. Afterwards `filled` counts the new bytes too: if they are fewer than
    /// `buf.len()` after `Ok`, the reader is at its end. If `buf` is full, no call is made. Rust's
    /// std has no such call.
    ///
    /// # Errors
    /// Returns the first fault that comes before `buf` is full; the reader is then right after it. The
    /// bytes before it are in `buf` and counted, so the same call continues. Never returns `Interrupted`.
    ///
    /// ```rust
    /// let mut r = Cursor::new(*b"abcde");
    /// let mut buf = [0u8; 8];
    /// let mut filled = 0;
    /// r.read_full(&mut buf, &mut filled)?;
    /// assert!(rt; &buf[..filled] == b"abcde".as_slice()); // fewer than 8: the end
    /// ```
    fn read_full(&mut self, buf: &mut [u8], filled: &mut usize) -> Result<()>
        ensures law { ReadFullLaw ⟦<Self as Read>⟧ self.old buf.old filled.old result buf.new filled.new self.new }
    {
        'reads: while *filled < buf.len() {
            match self.read(&mut buf[*filled..]) {
                Ok(0) => return Ok(()),
                Ok(n) => *filled += n,
                Err(e) if e.is_interrupted() => {}
                Err(e) => return Err(e),
            }
        }
        Ok(())
    }

    /// Appends all remaining bytes to `buf`, and returns their number. It ignores interruptions.
    /// Before its first read, and whenever no room is left, it makes room for at least 32 bytes; a
    /// slice, a cursor and a queue make room for all of their rest and 32 bytes. The first growth is by
    /// these bytes alone, unless `buf` had far more bytes before; the next ones double the
    /// capacity. If `buf` has room for the bytes before the first fault and for 32 more,
    /// `read_to_end` never fails for lack of memory. If the length is known,
    /// `take(len).read_to_end(buf)` needs no more room than that. Follows
    /// `std::io::Read::read_to_end`.
    ///
    /// # Errors
    /// Returns the first fault if there is one; the reader is then right after it. Returns
    /// `OutOfMemory` if `buf` could not grow; the read that needed the room is not made. After
    /// either error, `buf` has its old content, followed by the bytes that were taken. Never
    /// returns `Interrupted`.
    ///
    /// ```rust
    /// let mut r = Cursor::new(*b"abcde");
    /// let mut content = Vec::<u8>::new(rt.alloc());
    /// assert!(rt; r.read_to_end(&mut content)? == 5);
    /// assert!(rt; content.as_slice() == b"abcde".as_slice());
    /// ```
    fn read_to_end<A: Allocator>(&mut self, buf: &mut Vec<u8, A>) -> Result<usize>
    where
        Self: Sized,
        ensures law { ReadToEndLaw ⟦<Self as Read>⟧ self.old buf.old result buf.new self.new }
    {
        let start = buf.len();
        let own = buf.capacity();
        let mut filled = start;
        reserve_first(buf, LEAST_ROOM, 0)?;
        'reads: loop {
            open_room(buf, filled, filled - start, own, usize::MAX)?;
            match self.read(&mut buf[filled..]) {
                Ok(0) => {
                    buf.truncate(filled);
                    return Ok(filled - start);
                }
                Ok(n) => filled += n,
                Err(e) if e.is_interrupted() => {}
                Err(e) => {
                    buf.truncate(filled);
                    return Err(e);
                }
            }
        }
    }

    /// Appends all remaining bytes to the string `buf`, and returns their number. It ignores
    /// interruptions. They are read into the string's own memory; meanwhile `buf` is an empty string
    /// of `alloc`. Follows `std::io::Read::read_to_string`.
    ///
    /// # Errors
    /// Returns `InvalidData` if the bytes are not UTF-8; `buf` is unchanged, and the bytes are
    /// taken. Returns the first fault of the reader; the bytes before it are appended if they are
    /// UTF-8, and else `buf` is unchanged. After `OutOfMemory`, also one of the device's own, `buf`
    /// is unchanged, and the bytes that this call has taken are lost. Never returns `Interrupted`.
    ///
    /// ```rust
    /// let mut r = Cursor::new(*b"abc");
    /// let mut text = String::new(rt.alloc());
    /// assert!(rt; r.read_to_string(rt.alloc(), &mut text)? == 3);
    /// assert!(rt; text.as_str() == "abc");
    /// ```
    final fn read_to_string(&mut self, alloc: Global, buf: &mut String) -> Result<usize>
    where
        Self: Sized,
        ensures law { ReadToStringLaw ⟦<Self as Read>⟧ self.old buf.old result buf.new self.new }
    {
        let start = buf.len();
        let mut bytes = take_bytes(alloc, buf);
        let read = self.read_to_end(&mut bytes);
        put_back(buf, bytes, start, read)
    }

    /// Lends the reader itself, for an adaptor that would take it by value. Follows `std::io::Read::by_ref`.
    ///
    /// ```rust
    /// let mut r = Cursor::new(*b"abcde");
    /// let mut head = Vec::<u8>::new(rt.alloc());
    /// Read::by_ref(&mut r).take(2).read_to_end(&mut head)?;
    /// assert!(rt; r.position() == 2); // `r` continues after `ab`
    /// ```
    final fn by_ref(&mut self) -> &mut Self
    where
        Self: Sized,
        ensures name { result.ghost_name ≡ self.entry.ghost_name }
        ensures value { result.now ≡ self.old }
    {
        self
    }

    /// Turns this reader into an iterator over its bytes. Follows `std::io::Read::bytes`.
    final fn bytes(self) -> Bytes<Self>
    where
        Self: Sized,
        ensures { bytes_reader result ≡ self }
    {
        Bytes::new(self)
    }

    /// Returns a reader that reads this reader to its end, and then `next`. Follows `std::io::Read::chain`.
    final fn chain<R: Read>(self, next: R) -> Chain<Self, R>
    where
        Self: Sized,
        ensures first { chain_first result ≡ self }
        ensures second { chain_second result ≡ next }
        ensures fresh { chain_is_done result ≡ false }
        ensures events { chain_events (tells ⟦<Self as Read>⟧) (tells R.Read) result
            ≡ both_to_come (to_come (tells ⟦<Self as Read>⟧ self)) (to_come (tells R.Read next)) }
    {
        Chain::new(self, next)
    }

    /// Returns a reader of at most the first `limit` bytes of this one. Follows `std::io::Read::take`.
    ///
    /// ```rust
    /// let mut r = Cursor::new(*b"abcde").take(2);
    /// let mut content = Vec::<u8>::new(rt.alloc());
    /// assert!(rt; r.read_to_end(&mut content)? == 2);
    /// ```
    final fn take(self, limit: u64) -> Take<Self>
    where
        Self: Sized,
        ensures inner { limit_inner result ≡ self }
        ensures limit { limit_left result ≡ limit }
        ensures len { limit_set result ≡ limit }
        ensures events { limit_events (tells ⟦<Self as Read>⟧) result ≡ cut_to_come limit (to_come (tells ⟦<Self as Read>⟧ self)) }
    {
        Take::new(self, limit)
    }
}
