//! An inner writer with a buffer in front of it, from which both buffered writers are built.
//!
//! A write that is held is a hot path, which its callers inline. All else is in a cold function, `.._cold`. Through a
//! small buffer all writes are calls of the cold functions, and all sendings calls of `send`, so that their code is
//! there once.
ghost use Rattle.std.specs.Prelude.{◌≡◌, ◌+◌, ◌<◌, ◌≤◌, [], ◌++◌, length};
ghost use Rattle.std.specs.Bool.{OnTrue, OnFalse};
ghost use Rattle.std.specs.Borrow.{Lends, sem};
ghost use Rattle.no_std_io2.specs.contracts.buffered.sender.Sender.{the_row as sender-row};
ghost use Rattle.no_std_io2.specs.inner.BufWriter.{sender_inner, sender_buffer, TakesStep, SendCalls, RoomCalls, WriteCalls, WriteAllCalls};
ghost use Rattle.no_std_io2.specs.inner.BufWriter.{FlushCalls};
ghost use Rattle.no_std_io2.specs.BufWriter.{FillsFrom, Unwraps};
ghost use Rattle.no_std_io2.specs.inner.Buffer.{unsent_bytes};

use super::buffer::{Buffer, SMALL};
use super::into_inner_error::IntoInnerError;
use super::unsent::Unsent;
use no_std_io2_base::error::{Error, ErrorKind, Result};
use no_std_io2_base::traits::{Read, Write};

/// An inner writer and the bytes that are held for it. It has no bound, so that a struct with a
/// ghost field may hold it.
#[derive(Drop)]
pub struct Sender<W, const S: usize> {
    inner: W,
    buffer: Buffer<S>,
}

impl<W: Write + Drop, const S: usize> Sender<W, S> {
    pub fn new(inner: W) -> Sender<W, S>
        ensures inner { sender_inner result ≡ inner }
        ensures empty { sender_buffer result ≡ [] }
    {
        Sender {
            inner,
            buffer: Buffer::new(),
        }
    }

    pub fn get_ref(&self) -> &W
        ensures { result.now ≡ sender_inner self.now }
    {
        &self.inner
    }

    // Gets a mutable reference to the inner writer. A write through it changes nothing else.
    pub fn get_mut(&mut self) -> &mut W
        ensures value { result.now ≡ sender_inner self.old }
        ensures* writes_back { sem 𝓛 (Lends (sender-row W.row S.row) W.row self.entry result
            (λ inner. record self.old { inner = inner })) }
    {
        &mut self.inner
    }

    pub fn buffer(&self) -> &[u8]
        ensures value { result.now ≡ sender_buffer self.now }
        ensures bound { length result.now ≤ S }
    {
        self.buffer.as_slice()
    }

    pub fn capacity(&self) -> usize
        ensures { result ≡ S }
    {
        S
    }

    /// Sends the held bytes: repeats the inner `write` with all of them, and ignores interruptions.
    /// Bytes that the inner writer took are no longer held, whatever the result, and no byte moves.
    ///
    /// # Errors
    /// Returns `WriteZero` if an inner write takes no byte, and the inner writer's fault if one fails.
    #[inline(never)]
    pub(crate) fn send(&mut self) -> Result<()>
        ensures calls { TakesStep W.Write sender_inner sender_buffer SendCalls self.old result self.new }
        ensures unmoved { self.new.buffer.bytes ≡ self.old.buffer.bytes }
    {
        self.send_held()
    }

    /// The body of `send`, for functions that are calls themselves: a call of `send` takes 32 instructions more.
    #[inline(always)]
    pub(crate) fn send_held(&mut self) -> Result<()>
        ensures calls { TakesStep W.Write sender_inner sender_buffer SendCalls self.old result self.new }
        ensures unmoved { self.new.buffer.bytes ≡ self.old.buffer.bytes }
    {
        'sends: while self.buffer.len() > 0 {
            match self.inner.write(self.buffer.as_slice()) {
                Ok(0) => {
                    let text = "failed to write the buffered data";
                    return Err(Error::new(ErrorKind::WriteZero, text));
                }
                Ok(n) => self.buffer.drop_front(n),
                Err(e) if e.is_interrupted() => {}
                Err(e) => return Err(e),
            }
        }
        Ok(())
    }

    /// Tries once to send the held bytes, ignores a fault, and drops the inner writer. The buffer is moved only if
    /// bytes are held.
    #[inline(always)]
    pub(crate) fn send_last(self) {
        if self.buffer.len() > 0 {
            let mut held = self;
            let _ = held.send();
        }
    }

    /// Holds `more` after the held bytes.
    pub(crate) fn hold(&mut self, more: &[u8])
        requires { length (sender_buffer self.old) + length more.now ≤ S }
        ensures same { sender_inner self.new ≡ sender_inner self.old }
        ensures buffer { sender_buffer self.new ≡ sender_buffer self.old ++ more.now }
    {
        self.buffer.push(more);
    }

    /// Holds both after the held bytes, if they fit after the end.
    #[inline(always)]
    pub(crate) fn hold_both_if_room(&mut self, head: &[u8], tail: &[u8]) -> bool
        requires { length head.now + length tail.now < S }
        ensures held { OnTrue result ((length (sender_buffer self.old) + (length head.now + length tail.now) ≤ S)
            × (sender_inner self.new ≡ sender_inner self.old)
            × (sender_buffer self.new ≡ (sender_buffer self.old ++ head.now) ++ tail.now)) }
        ensures same { OnFalse result (self.new ≡ self.old) }
    {
        self.buffer.append_both_if_room(head, tail)
    }

    /// Reads `from` into the room beside the held bytes, until `n` more are held or the end comes first.
    pub(crate) fn fill_from<R: Read>(&mut self, from: &mut R, n: usize) -> Result<()>
        requires { length (sender_buffer self.old) + n ≤ S }
        ensures same { sender_inner self.new ≡ sender_inner self.old }
        ensures fills { FillsFrom R.Read n from.old (sender_buffer self.old) result (sender_buffer self.new) from.new }
    {
        self.buffer.read_full_on(from, n)
    }

    /// Sends the held bytes if `more` bytes do not fit beside them.
    ///
    /// # Errors
    /// Returns the error of `send`.
    #[inline(always)]
    pub(crate) fn make_room(&mut self, more: usize) -> Result<()>
        ensures { TakesStep W.Write sender_inner sender_buffer (RoomCalls S more) self.old result self.new }
    {
        if more <= S - self.buffer.len() {
            return Ok(());
        }
        if S <= SMALL {
            return self.send();
        }
        self.send_held()
    }

    /// Holds `buf` if it is shorter than `S`, and passes it to the inner `write` if it is not. If both
    /// together are longer than `S`, the held bytes are sent first. If nothing is held, the call of the
    /// inner `write` is a hot path too.
    ///
    /// # Errors
    /// Returns the error of `send` or of the inner `write`. Nothing of `buf` was accepted then.
    #[inline(always)]
    pub(crate) fn write(&mut self, buf: &[u8]) -> Result<usize>
        ensures { TakesStep W.Write sender_inner sender_buffer (WriteCalls S buf.now) self.old result self.new }
    {
        if S <= SMALL {
            return self.write_out_of_line(buf);
        }
        if self.buffer.append_if_room(buf) {
            return Ok(buf.len());
        }
        if buf.len() >= S && self.buffer.len() == 0 {
            return self.inner.write(buf);
        }
        self.write_out_of_line(buf)
    }

    // Calls `write_cold`, which the hot path does not call: a function that makes a call zeroes the room for the result
    // when it starts, which costs four instructions. This one is inlined, and only its path makes the room.
    #[inline(always)]
    fn write_out_of_line(&mut self, buf: &[u8]) -> Result<usize>
        ensures { TakesStep W.Write sender_inner sender_buffer (WriteCalls S buf.now) self.old result self.new }
    {
        self.write_cold(buf)
    }

    /// The whole of `write`.
    #[cold]
    #[inline(never)]
    fn write_cold(&mut self, buf: &[u8]) -> Result<usize>
        ensures { TakesStep W.Write sender_inner sender_buffer (WriteCalls S buf.now) self.old result self.new }
    {
        self.make_room(buf.len())?;
        if buf.len() >= S {
            return self.inner.write(buf);
        }
        self.buffer.push(buf);
        Ok(buf.len())
    }

    /// Holds `buf` if it is shorter than `S`, and passes it to the inner `write_all` if it is not. If
    /// both together are longer than `S`, the held bytes are sent first. If nothing is held, the call
    /// of the inner `write_all` is a hot path too.
    ///
    /// # Errors
    /// Returns the error of `send` or of the inner `write_all`.
    #[inline(always)]
    pub(crate) fn write_all(&mut self, buf: &[u8]) -> Result<()>
        ensures { TakesStep W.Write sender_inner sender_buffer (WriteAllCalls S buf.now) self.old result self.new }
    {
        if S <= SMALL {
            return self.write_all_out_of_line(buf);
        }
        if self.buffer.append_if_room(buf) {
            return Ok(());
        }
        if buf.len() >= S && self.buffer.len() == 0 {
            return self.inner.write_all(buf);
        }
        self.write_all_out_of_line(buf)
    }

    // Calls `write_all_cold`, for the reason at `write_out_of_line`.
    #[inline(always)]
    fn write_all_out_of_line(&mut self, buf: &[u8]) -> Result<()>
        ensures { TakesStep W.Write sender_inner sender_buffer (WriteAllCalls S buf.now) self.old result self.new }
    {
        self.write_all_cold(buf)
    }

    /// The whole of `write_all`.
    #[cold]
    #[inline(never)]
    fn write_all_cold(&mut self, buf: &[u8]) -> Result<()>
        ensures { TakesStep W.Write sender_inner sender_buffer (WriteAllCalls S buf.now) self.old result self.new }
    {
        self.make_room(buf.len())?;
        if buf.len() >= S {
            return self.inner.write_all(buf);
        }
        self.buffer.push(buf);
        Ok(())
    }

    /// Sends the held bytes, then flushes the inner writer.
    ///
    /// # Errors
    /// Returns the error of `send`, with the inner writer not flushed, or of the inner `flush`.
    pub(crate) fn flush(&mut self) -> Result<()>
        ensures { TakesStep W.Write sender_inner sender_buffer FlushCalls self.old result self.new }
    {
        self.send()?;
        self.inner.flush()
    }

    /// Sends the held bytes and returns the inner writer, which is not flushed.
    ///
    /// # Errors
    /// Returns the error of `send` with this writer, which holds the bytes that were not sent.
    pub(crate) fn into_inner(mut self) -> std::result::Result<W, IntoInnerError<Sender<W, S>>>
        ensures { Unwraps W.Write sender_inner sender_buffer self result }
    {
        match self.send() {
            Ok(()) => Ok(self.inner),
            Err(error) => Err(IntoInnerError::new(self, error)),
        }
    }

    /// Returns the inner writer and the held bytes, and sends nothing.
    pub(crate) fn into_parts(self) -> (W, Unsent<S>)
        ensures inner { result.0 ≡ sender_inner self }
        ensures unsent { unsent_bytes result.1 ≡ sender_buffer self }
    {
        let buffer = self.buffer;
        (self.inner, Unsent { buffer })
    }
}
