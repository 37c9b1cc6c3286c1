// [`LineWriter`], a buffer that is sent at the end of each line.
ghost use Rattle.std.specs.Prelude.{◌≡◌, ◌+◌, ◌≤◌, [], length, IsOk, IfOk, IfErr, OnOk};
ghost use Rattle.std.specs.Borrow.{Lends, sem};
ghost use Rattle.no_std_io2.specs.contracts.buffered.line_writer.LineWriter.{the_row as line-row};
ghost use Rattle.no_std_io2_base.specs.inner.Lines.{IsLineState};
ghost use Rattle.no_std_io2_base.specs.inner.Pieces.{Lacks};
ghost use Rattle.no_std_io2_base.specs.Pieces.{newline};
ghost use Rattle.no_std_io2.specs.LineWriter.{line_inner, line_buffer};
ghost use Rattle.no_std_io2.specs.inner.LineWriter.{line_with_inner, line_told, LineCalls, LineWriteAllCalls, line_buffer_after};
ghost use Rattle.no_std_io2.specs.inner.LineWriter.{line_buffer_filled, IsShortText, HoldsShort};
ghost use Rattle.no_std_io2.specs.inner.BufWriter.{TakesStep, into_inner_error_writer, BufferMay};
ghost use Rattle.no_std_io2.specs.BufWriter.{Unwraps};
ghost use Rattle.no_std_io2_base.specs.Writers.{TakesAll, WriteAllOf, WriteOf, FlushOf};

mod state;
mod steps;

use super::into_inner_error::IntoInnerError;
use super::sender::Sender;
use no_std_io2_base::error::Result;
use no_std_io2_base::traits::Write;
use state::LineSender;
use std::fmt;

/// Passes each line on as soon as it is complete. An incomplete line is held, up to `S` bytes; `S`
/// may be 0. Follows Rust's `std::io::LineWriter`.
///
/// A line ends in a newline byte. The held bytes have no newline, or end in one. They end in one if
/// the inner writer took only a part of the lines; the next call then sends them first.
///
/// Dropping it tries once to send the held bytes, and ignores a fault. To see the fault, first call
/// [`Write::flush`] or [`LineWriter::into_inner`].
///
/// ```rust
/// let mut w = LineWriter::<Vec<u8>, 16>::new(Vec::new(rt.alloc()));
/// w.write_all(b"one\ntw")?;
/// assert!(rt; w.get_ref().as_slice() == b"one\n".as_slice());
/// assert!(rt; w.buffer() == b"tw".as_slice());
/// w.write_all(b"o\n")?;
/// assert!(rt; w.get_ref().as_slice() == b"one\ntwo\n".as_slice());
/// ```
pub struct LineWriter<W: Write + Drop, const S: usize> {
    sender: LineSender<W, S>,
}

impl<W: Write + Drop, const S: usize> LineWriter<W, S> {
    /// Puts an empty buffer of `S` bytes in front of `inner`. Follows `std::io::LineWriter::with_capacity`.
    pub fn new(inner: W) -> LineWriter<W, S>
        ensures inner { line_inner result ≡ inner }
        ensures empty { line_buffer result ≡ [] }
    {
        LineWriter {
            sender: LineSender::new(Sender::new(inner)),
        }
    }

    /// Gets a reference to the inner writer. Follows `std::io::LineWriter::get_ref`.
    pub fn get_ref(&self) -> &W
        ensures { result.now ≡ line_inner self.now }
    {
        self.sender.buffered.get_ref()
    }

    /// Gets a mutable reference to the inner writer. The buffer stays. Bytes that are written here go
    /// out before those that are held. Follows `std::io::LineWriter::get_mut`.
    ///
    /// ```rust
    /// let mut w = LineWriter::<Vec<u8>, 16>::new(Vec::new(rt.alloc()));
    /// w.write_all(b"one\ntw")?;
    /// w.get_mut().clear(); // forgets `one\n`; `tw` is still held
    /// let device = w.into_inner()?; // sends `tw`
    /// assert!(rt; device.as_slice() == b"tw".as_slice());
    /// ```
    pub fn get_mut(&mut self) -> &mut W
        ensures value { result.now ≡ line_inner self.old }
        ensures* writes_back { sem 𝓛 (Lends (line-row W.row S.row) W.row self.entry result (line_with_inner self.old)) }
    {
        self.sender.get_mut()
    }

    /// Returns the held bytes, at most `S`. They have no newline, or end in one. Follows
    /// `std::io::BufWriter::buffer`; Rust's `LineWriter` has no such call.
    pub fn buffer(&self) -> &[u8]
        ensures value { result.now ≡ line_buffer self.now }
        ensures bound { length result.now ≤ S }
        ensures line { IsLineState result.now }
    {
        self.sender.buffered.buffer()
    }

    /// Sends the held bytes and returns the inner writer, which is not flushed. If nothing is held,
    /// it makes no inner call. Follows `std::io::LineWriter::into_inner`.
    ///
    /// # Errors
    /// Returns `WriteZero` if an inner write takes no byte, and the inner writer's fault if one fails.
    /// The error contains this writer, which holds the bytes that were not sent; they have no newline,
    /// or end in one. Never returns `Interrupted`.
    pub fn into_inner(self) -> std::result::Result<W, IntoInnerError<LineWriter<W, S>>>
        ensures law { Unwraps W.Write line_inner line_buffer self result }

        // The bytes that are still held have no newline, or end in one.
        ensures line { IfErr result (λ e. IsLineState (line_buffer (into_inner_error_writer e))) }
    {
        let LineWriter { sender } = self;
        let LineSender { buffered } = sender;
        match buffered.into_inner() {
            Ok(inner) => Ok(inner),
            Err(e) => {
                let (error, buffered) = e.into_parts();
                let sender = LineSender { buffered };
                Err(IntoInnerError::new(LineWriter { sender }, error))
            }
        }
    }
}

/// Tries once to send the held bytes, ignores a fault, and does not flush the inner writer.
impl<W: Write + Drop, const S: usize> Drop for LineWriter<W, S> {
    #[inline(never)]
    fn drop(self) {
        let LineWriter { sender } = self;
        sender.buffered.send_last();
    }
}

/// Shows the inner writer, and the buffer as `3/8` if 3 bytes are held and 8 can be.
impl<W: Write + Drop + fmt::Debug, const S: usize> fmt::Debug for LineWriter<W, S> {
    fn fmt<F: fmt::Write>(&self, f: &mut fmt::Formatter<F>) -> fmt::Result {
        let held = self.buffer().len();
        f.debug_struct("LineWriter")
            .field("writer", self.get_ref())
            .field("buffer", &format_args!("{held}/{S}"))
            .finish()
    }
}

/// Sends bytes line by line. Its `out` is the inner writer's `out`; its `held` is the inner writer's
/// `held`, then its own buffer.
impl<W: Write + Drop, const S: usize> Write for LineWriter<W, S> {
    ghost told = { line_told W.told };

    ghost may = { BufferMay W.Write (LineCalls S) line_inner line_buffer };

    /// Writes some first bytes of `buf`. Complete lines that are held are sent first. If `buf` has no
    /// newline, it is then written as by a `BufWriter`: it is held if it fits; if not, the held
    /// bytes are sent first, and a `buf` of at least `S` bytes is one inner write. If `buf` has a
    /// newline, all held bytes are sent, and one inner write gets the lines of `buf`. Of the bytes
    /// that this leaves, at most `S` are held, and they either end in a newline or have none.
    ///
    /// # Errors
    /// Returns `WriteZero` if an inner write of held bytes takes no byte, and the inner writer's error if an inner
    /// write fails. Nothing of `buf` was accepted then, and bytes that were not sent are still held.
    fn write(&mut self, buf: &[u8]) -> Result<usize>
        ensures law { WriteOf ⟦<Self as Write>⟧ self.old buf.now result self.new }

        // A short text without a newline is taken whole or not at all, and held if it fits.
        ensures short { IsShortText S buf.now → IfOk result (λ n. n ≡ length buf.now) }
        ensures fits { HoldsShort self.old buf.now result self.new }

        // Over an inner writer that takes all: which bytes are held afterwards.
        ensures held { TakesAll W.Write (line_inner self.old)
            → line_buffer self.new ≡ line_buffer_filled S (line_buffer self.old) buf.now }
        ensures inner { TakesAll W.Write (line_inner self.old) → TakesAll W.Write (line_inner self.new) × IsOk result }
    {
        steps::write(&mut self.sender.buffered, buf)
    }

    /// Sends the held bytes, then flushes the inner writer.
    ///
    /// # Errors
    /// Returns `WriteZero` if an inner write of held bytes takes no byte, and the inner writer's error if an inner call
    /// fails. Bytes that were not sent are still held, and a later flush continues with them.
    fn flush(&mut self) -> Result<()>
        ensures law { FlushOf ⟦<Self as Write>⟧ self.old result self.new }
        ensures unheld { OnOk result (line_buffer self.new ≡ []) }
    {
        self.sender.buffered.flush()
    }

    /// Writes all of `buf`. If `buf` has no newline, it is written as by [`LineWriter::write`]. If it has
    /// one, the held bytes and the lines of `buf` are sent; the bytes after the lines are then held if
    /// they are fewer than `S`, and go to the inner writer if they are not. After `Ok` no newline is
    /// held; if `buf` ends in a newline, nothing is held.
    ///
    /// # Errors
    /// Returns `WriteZero` if an inner write takes no byte, and the inner writer's first fault if one
    /// fails. Then some first bytes of `buf`, possibly none or all, were accepted: they are out or held.
    /// Never returns `Interrupted`.
    fn write_all(&mut self, buf: &[u8]) -> Result<()>
        ensures law { WriteAllOf ⟦<Self as Write>⟧ self.old buf.now result self.new }
        ensures calls { TakesStep W.Write line_inner line_buffer (LineWriteAllCalls S buf.now) self.old result self.new }

        // After `Ok` only the unfinished line is held.
        ensures no_newline_held { OnOk result (Lacks newline (line_buffer self.new)) }
        ensures held { OnOk result (line_buffer self.new ≡ line_buffer_after S (line_buffer self.old) buf.now) }
        ensures fits { HoldsShort self.old buf.now result self.new }
        ensures inner { TakesAll W.Write (line_inner self.old) → TakesAll W.Write (line_inner self.new) × IsOk result }
    {
        steps::write_all(&mut self.sender.buffered, buf)
    }
}
