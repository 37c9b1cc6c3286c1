//! [`FrameWriter`], which sends each frame whole or not at all.
ghost use Rattle.std.specs.Prelude.{◌≡◌, [], map};
ghost use Rattle.no_std_io2.specs.{BufWriter.{writer_inner, writer_buffer, Unwraps}, Retries.{FlushTries}, Writers.{FlushOf}};
ghost use Rattle.framing.specs.Sending.{writes_to, frames_held, frame_writer, SendsFrame, SendsFrames};

use no_std_io2::io::{
    BufWriter, Error, ErrorKind, IntoInnerError, Result, Write, flush_with_retries,
};

/// A writer of frames, with a buffer of `S` bytes in front of any writer. A frame has to be shorter than the
/// buffer, so choose an `S` that is five bytes more than the longest payload, or larger.
///
/// Take the bytes that the device has, then the held bytes: together they are always the bytes at the start,
/// followed by exactly the frames for which `send` returned `Ok`.
///
/// Dropping it tries once to send the held bytes, and ignores a fault.
#[derive(Drop)]
pub struct FrameWriter<W: Write + Drop, const S: usize> {
    inner: BufWriter<W, S>,
}

impl<W: Write + Drop, const S: usize> FrameWriter<W, S> {
    /// Makes a writer of frames to `inner`.
    pub fn new(inner: W) -> FrameWriter<W, S>
        ensures inner { writes_to result ≡ inner }
        ensures empty { frames_held result ≡ [] }
    {
        FrameWriter {
            inner: BufWriter::new(inner),
        }
    }

    /// Gets a reference to the writer below.
    pub fn get_ref(&self) -> &W
        ensures { result.now ≡ writes_to self.now }
    {
        self.inner.get_ref()
    }

    /// Sends a payload. After `Ok` its whole frame was accepted, and is held. If the frame does not fit beside
    /// the held bytes, these go to the writer below first.
    ///
    /// # Errors
    /// Returns `InvalidInput` if the frame is not shorter than the buffer, or the payload has 2^32 bytes or more;
    /// nothing has then changed. Returns the writer's first fault, and `WriteZero` if it takes no byte. After each
    /// error nothing of this frame was accepted, and the same call may be made again. Never returns `Interrupted`.
    pub fn send(&mut self, payload: &[u8]) -> Result<()>
        ensures sends { SendsFrame W.Write payload.now self.old result self.new }
    {
        match u32::try_from(payload.len()) {
            Ok(len) if payload.len() + 4 < S => self.inner.write_whole(&len.to_le_bytes(), payload),
            _ => {
                let text = "a frame is longer than the buffer";
                Err(Error::new(ErrorKind::InvalidInput, text))
            }
        }
    }

    /// Sends these payloads in order, and removes each from the front of `rest` once its frame is accepted. So
    /// after an error the same call continues, and each frame goes out once.
    ///
    /// # Errors
    /// Returns the errors that [`send`](FrameWriter::send) returns for the first payload that is left in `rest`.
    ///
    /// ```rust
    /// let payloads = [b"hello".as_slice(), b"ab".as_slice()];
    /// let mut w = FrameWriter::<Vec<u8>, 64>::new(Vec::new(rt.alloc()));
    /// let mut rest = payloads.as_slice();
    /// if w.send_all(&mut rest).is_err() {
    ///     w.send_all(&mut rest)?; // continues where it stopped
    /// }
    /// assert!(rt; rest.is_empty());
    /// w.flush()?;
    /// assert!(rt; w.get_ref().as_slice() == b"\x05\0\0\0hello\x02\0\0\0ab".as_slice());
    /// ```
    pub fn send_all(&mut self, rest: &mut &[&[u8]]) -> Result<()>
        ensures sends { SendsFrames W.Write self.old (map (λ p. p.now) rest.old.now) result self.new (map (λ p. p.now) rest.new.now) }
    {
        'frames: while !rest.is_empty() {
            self.send(rest[0])?;
            *rest = &rest[1..];
        }
        Ok(())
    }

    /// Sends all held bytes, and flushes the writer below. After `Ok` nothing is held.
    ///
    /// # Errors
    /// Returns the errors of the sending, as `send` does, and the device's error if its `flush` fails. Bytes that
    /// were not sent are still held, and the same call continues.
    pub fn flush(&mut self) -> Result<()>
        ensures law { FlushOf ⟦<BufWriter<W, S> as Write>⟧ (frame_writer self.old) result (frame_writer self.new) }
    {
        self.inner.flush()
    }

    /// Flushes like [`flush`](FrameWriter::flush), and tries again after each of the first `retries` faults. If the
    /// device tells that at most `retries` mishaps are to come, the call succeeds.
    ///
    /// # Errors
    /// Returns the fault of the last try if that try fails too.
    ///
    /// ```rust
    /// let mut w = FrameWriter::<Vec<u8>, 64>::new(Vec::new(rt.alloc()));
    /// w.send(b"ab")?;
    /// w.flush()?;
    /// w.send(b"c")?;
    /// w.flush_with_retries(3)?; // tries again after each of the first three faults
    /// assert!(rt; w.get_ref().len() == 11);
    /// let device = w.into_inner()?;
    /// assert!(rt; device.as_slice() == b"\x02\0\0\0ab\x01\0\0\0c".as_slice());
    /// ```
    pub fn flush_with_retries(&mut self, retries: u32) -> Result<()>
        ensures { FlushTries ⟦<BufWriter<W, S> as Write>⟧ retries (frame_writer self.old) result (frame_writer self.new) }
    {
        flush_with_retries(&mut self.inner, retries)
    }

    /// Sends the held bytes and returns the writer below, which is not flushed. If nothing is held, it makes no call.
    /// Follows `std::io::BufWriter::into_inner`.
    ///
    /// # Errors
    /// Returns the errors of the sending, with the buffered writer, which holds the bytes that were not sent.
    pub fn into_inner(self) -> std::result::Result<W, IntoInnerError<BufWriter<W, S>>>
        ensures law { Unwraps W.Write writer_inner writer_buffer (frame_writer self) result }
    {
        let FrameWriter { inner } = self;
        inner.into_inner()
    }
}
