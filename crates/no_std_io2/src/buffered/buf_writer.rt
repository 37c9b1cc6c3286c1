//! [`BufWriter`], a buffer in front of a writer.
ghost use Rattle.std.specs.Prelude.{◌≡◌, ◌≤◌, [], length, OnOk};
ghost use Rattle.std.specs.Borrow.{Lends, sem};
ghost use Rattle.no_std_io2.specs.contracts.buffered.buf_writer.BufWriter.{the_row as writer-row};
ghost use Rattle.no_std_io2_base.specs.Writers.{WriteAllOf, WriteOf, FlushOf};
ghost use Rattle.no_std_io2.specs.inner.BufWriter.{BufferMay, writer_with_inner, InnerCalls, Buffers, BuffersAll};
ghost use Rattle.no_std_io2.specs.BufWriter.{writer_inner, writer_buffer, writer_told, Unwraps};
ghost use Rattle.no_std_io2.specs.inner.Buffer.{unsent_bytes};

mod seeking;
mod whole;

use super::into_inner_error::IntoInnerError;
use super::sender::Sender;
use super::unsent::Unsent;
use no_std_io2_base::error::Result;
use no_std_io2_base::traits::Write;
use std::fmt;
use std::fmt::{Debug, Formatter};

/// Puts a buffer of `S` bytes in front of a writer, so that many small writes make few large writes
/// of the inner writer. Follows `std::io::BufWriter`, over an array in place of a vector.
///
/// A write of fewer than `S` bytes is held whole. If it does not fit next to the held bytes, these
/// are *sent* first. A write of `S` bytes or more goes straight to the inner writer, after the held
/// bytes. To send means to repeat the inner `write` with all held bytes until none is left. Sending
/// ignores interruptions and stops at a fault. Bytes that the inner writer took are no longer held,
/// so no byte goes out twice. With `S` = 0 each call goes to the inner writer.
///
/// Dropping it tries once to send the held bytes. It ignores a fault, and does not flush the inner
/// writer. To see the fault, first call [`flush`](Write::flush) or [`into_inner`](BufWriter::into_inner).
///
/// In contracts, it tells what its inner writer tells, and its `held` is the inner writer's `held`
/// followed by its own buffer.
///
/// ```rust
/// let mut w = BufWriter::<Vec<u8>, 8>::new(Vec::new(rt.alloc()));
/// w.write_all(b"abc")?;
/// w.write_all(b"def")?;
/// assert!(rt; w.get_ref().is_empty()); // `abcdef` is held
/// w.write_all(b"ghi")?; // does not fit beside them: they are sent first
/// assert!(rt; w.get_ref().as_slice() == b"abcdef".as_slice());
/// w.flush()?;
/// assert!(rt; w.get_ref().as_slice() == b"abcdefghi".as_slice());
/// ```
pub struct BufWriter<W: Write + Drop, const S: usize> {
    sender: Sender<W, S>,
}

impl<W: Write + Drop, const S: usize> BufWriter<W, S> {
    /// Puts an empty buffer of `S` bytes in front of `inner`. Follows `std::io::BufWriter::with_capacity`.
    ///
    /// ```rust
    /// let mut w = BufWriter::<_, 8>::new(Cursor::new(Vec::<u8>::new(rt.alloc())));
    /// w.write_all(b"abc")?;
    /// assert!(rt; w.buffer() == b"abc".as_slice());
    /// assert!(rt; w.get_ref().position() == 0);
    /// w.get_mut().set_position(2);
    /// assert!(rt; w.buffer() == b"abc".as_slice()); // what is held stays
    /// ```
    pub fn new(inner: W) -> BufWriter<W, S>
        ensures inner { writer_inner result ≡ inner }
        ensures empty { writer_buffer result ≡ [] }
    {
        BufWriter {
            sender: Sender::new(inner),
        }
    }

    /// Gets a reference to the inner writer. Follows `std::io::BufWriter::get_ref`.
    pub fn get_ref(&self) -> &W
        ensures { result.now ≡ writer_inner self.now }
    {
        self.sender.get_ref()
    }

    /// Gets a mutable reference to the inner writer. The buffer stays. Bytes that are written here go
    /// out before those that are held. Follows `std::io::BufWriter::get_mut`.
    pub fn get_mut(&mut self) -> &mut W
        ensures value { result.now ≡ writer_inner self.old }
        ensures* writes_back { sem 𝓛 (Lends (writer-row W.row S.row) W.row self.entry result (writer_with_inner self.old)) }
    {
        self.sender.get_mut()
    }

    /// Returns the held bytes, at most `S`. Follows `std::io::BufWriter::buffer`.
    pub fn buffer(&self) -> &[u8]
        ensures value { result.now ≡ writer_buffer self.now }
        ensures bound { length result.now ≤ S }
    {
        self.sender.buffer()
    }

    /// Returns how many bytes can be held: `S`. Follows `std::io::BufWriter::capacity`.
    ///
    /// ```rust
    /// let mut w = BufWriter::<Vec<u8>, 8>::new(Vec::new(rt.alloc()));
    /// assert!(rt; w.capacity() == 8);
    /// w.write_all(b"abc")?;
    /// let device = w.into_inner()?; // sends `abc`
    /// assert!(rt; device.as_slice() == b"abc".as_slice());
    /// ```
    pub fn capacity(&self) -> usize
        ensures { result ≡ S }
    {
        self.sender.capacity()
    }

    /// Returns the inner writer and the bytes that were held for it, and sends
    /// nothing. Follows `std::io::BufWriter::into_parts`.
    ///
    /// ```rust
    /// let mut w = BufWriter::<Vec<u8>, 8>::new(Vec::new(rt.alloc()));
    /// w.write_all(b"abc")?;
    /// let (device, unsent) = w.into_parts();
    /// assert!(rt; device.is_empty());
    /// assert!(rt; unsent.as_slice() == b"abc".as_slice());
    /// ```
    pub fn into_parts(self) -> (W, Unsent<S>)
        ensures inner { result.0 ≡ writer_inner self }
        ensures unsent { unsent_bytes result.1 ≡ writer_buffer self }
    {
        let BufWriter { sender } = self;
        sender.into_parts()
    }

    /// Sends the held bytes and returns the inner writer, which is not flushed. If nothing is held,
    /// it makes no inner call. Follows `std::io::BufWriter::into_inner`.
    ///
    /// # Errors
    /// Returns `WriteZero` if an inner write takes no byte, and the inner writer's fault if one fails. The error
    /// contains this writer, which holds the bytes that were not sent. Never returns `Interrupted`.
    ///
    /// In a `match`, bind the error to a name: the borrow checker accepts `Err(_e)` here, but not `Err(_)`.
    pub fn into_inner(self) -> std::result::Result<W, IntoInnerError<BufWriter<W, S>>>
        ensures law { Unwraps W.Write writer_inner writer_buffer self result }
    {
        let BufWriter { sender } = self;
        match sender.into_inner() {
            Ok(inner) => Ok(inner),
            Err(e) => {
                let (error, sender) = e.into_parts();
                Err(IntoInnerError::new(BufWriter { sender }, error))
            }
        }
    }
}

/// Tries once to send the held bytes, ignores a fault, and does not flush the inner writer.
impl<W: Write + Drop, const S: usize> Drop for BufWriter<W, S> {
    #[inline(never)]
    fn drop(self) {
        let BufWriter { sender } = self;
        sender.send_last();
    }
}

/// Shows the inner writer, and the buffer as `3/8` if 3 bytes are held and 8 can be.
impl<W: Write + Drop + Debug, const S: usize> Debug for BufWriter<W, S> {
    fn fmt<V: fmt::Write>(&self, f: &mut Formatter<V>) -> fmt::Result {
        let held = self.buffer().len();
        f.debug_struct("BufWriter")
            .field("writer", self.get_ref())
            .field("buffer", &format_args!("{held}/{S}"))
            .finish()
    }
}

/// Tells what its inner writer tells; its `held` is the inner writer's `held`, then its own buffer.
impl<W: Write + Drop, const S: usize> Write for BufWriter<W, S> {
    ghost told = { writer_told W.told };

    ghost takes_all = { λ w. W.takes_all (writer_inner w) };

    ghost may = { BufferMay W.Write (InnerCalls S) writer_inner writer_buffer };

    /// Holds `buf` if it is shorter than `S`, and passes it to the inner `write` if it is not. If the
    /// held bytes and `buf` together are longer than `S`, the held bytes are sent first.
    ///
    /// # Errors
    /// Returns the sending's fault if the sending fails, and the inner `write`'s error if that fails.
    /// Nothing of `buf` was accepted then, and bytes that were not sent are still held.
    #[inline(always)]
    fn write(&mut self, buf: &[u8]) -> Result<usize>
        ensures law { WriteOf ⟦<Self as Write>⟧ self.old buf.now result self.new }

        ensures buffer { Buffers W.Write S writer_inner writer_buffer self.old buf.now result self.new }
    {
        self.sender.write(buf)
    }

    /// Sends the held bytes, then flushes the inner writer.
    ///
    /// # Errors
    /// Returns the sending's fault if the sending fails; the inner writer is then not flushed. Returns
    /// the inner `flush`'s error if that fails. Bytes that were not sent are still held.
    fn flush(&mut self) -> Result<()>
        ensures law { FlushOf ⟦<Self as Write>⟧ self.old result self.new }
        ensures unheld { OnOk result (writer_buffer self.new ≡ []) }
    {
        self.sender.flush()
    }

    /// Holds `buf` if it is shorter than `S`, and passes it to the inner `write_all` if it is not. If
    /// the held bytes and `buf` together are longer than `S`, the held bytes are sent first.
    ///
    /// # Errors
    /// Returns the sending's fault if the sending fails; nothing of `buf` was accepted then. Returns the
    /// inner `write_all`'s error if that fails; then some first bytes of `buf` were accepted, possibly
    /// none or all. Bytes that were not sent are still held.
    #[inline(always)]
    fn write_all(&mut self, buf: &[u8]) -> Result<()>
        ensures law { WriteAllOf ⟦<Self as Write>⟧ self.old buf.now result self.new }

        ensures buffer { BuffersAll W.Write S writer_inner writer_buffer self.old buf.now result self.new }
    {
        self.sender.write_all(buf)
    }
}
