//! [`LineLog`], a log of lines over any `Write`: each line is accepted whole or not at all, and goes out as soon as
//! it can. Nothing is allocated.
//!
//! ```rust
//! let mut log = LineLog::<Vec<u8>, 64>::new(Vec::new(rt.alloc()));
//! log.log("started")?;
//! assert!(rt; log.get_ref().as_slice() == b"started\n".as_slice());
//! ```
#![tactic(auto)]

ghost use Rattle.std.specs.Prelude.{◌≡◌, ◌<◌, ◌^◌, [], nat_lt, length};
ghost use Rattle.no_std_io2.specs.{BufWriter.{writer_inner, writer_buffer, Unwraps}, Retries.{FlushTries}, Writers.{FlushOf}};
ghost use Rattle.line_log.specs.Log.{LogsLine, LogsText, log_writer, log_inner, log_held};

mod printed;
mod text;

use no_std_io2::io::{
    Answers, BufWriter, Error, ErrorKind, IntoInnerError, Result, Write, flush_with_retries,
};
use std::fmt::Display;
use text::{print_text, too_long};

/// A log of lines, with a buffer of `S` bytes in front of any writer. A line with its newline has to be shorter than
/// the buffer.
///
/// Take the bytes that the device has, then the held bytes: together they are always the bytes at the start, followed
/// by exactly the lines for which `log` returned `Ok`, each with its newline.
///
/// Dropping it tries once to send the held bytes, and ignores a fault.
#[derive(Drop)]
pub struct LineLog<W: Write + Drop, const S: usize> {
    inner: BufWriter<W, S>,
}

impl<W: Write + Drop, const S: usize> LineLog<W, S> {
    /// Makes a log that goes to `inner`.
    pub fn new(inner: W) -> LineLog<W, S>
        ensures inner { log_inner result ≡ inner }
        ensures empty { log_held result ≡ [] }
    {
        LineLog {
            inner: BufWriter::new(inner),
        }
    }

    /// Gets a reference to the writer below.
    pub fn get_ref(&self) -> &W
        ensures { result.now ≡ log_inner self.now }
    {
        self.inner.get_ref()
    }

    /// Returns whether the writer below lacks some logged bytes, because a fault came. They are held.
    ///
    /// ```rust
    /// let mut room = [0u8; 4];
    /// let mut log = LineLog::<_, 16>::new(Cursor::new(&mut room[..]));
    /// log.log("started")?; // the device has room for `star` alone
    /// assert!(rt; log.is_behind());
    /// assert!(rt; log.flush().is_err()); // there is still no room, and the end is still held
    /// assert!(rt; log.is_behind());
    /// ```
    pub fn is_behind(&self) -> bool
        ensures { result ≡ nat_lt 0 (length (log_held self.now)) }
    {
        !self.inner.buffer().is_empty()
    }

    /// Logs a line: the text, followed by a newline. After `Ok` the whole line was accepted, and the writer below has
    /// all of it; or a fault came, and the end of it, or all, is held until the next call, which sends it first.
    ///
    /// # Errors
    /// Returns `InvalidInput` if the line is not shorter than the buffer, or else if the text has a newline in it.
    /// Otherwise returns the fault of the sending of earlier lines, if there is no room beside them. After each error
    /// nothing of this line was accepted. Never returns `Interrupted`.
    pub fn log(&mut self, line: &str) -> Result<()>
        ensures logs { LogsLine W.Write line.now self.old result self.new }
    {
        self.log_bytes(line.as_bytes())
    }

    /// Logs the printed text of a value, followed by a newline, like [`log`](LineLog::log). The text is first printed
    /// into an array of `S` bytes, so it is accepted whole or not at all.
    ///
    /// # Errors
    /// Returns `Other`, `formatter error`, if the value's own `fmt` failed, and the errors that `log` returns for
    /// the text.
    ///
    /// ```rust
    /// let mut log = LineLog::<Vec<u8>, 64>::new(Vec::new(rt.alloc()));
    /// log.log("started")?;
    /// let (name, value) = ("volts", 12);
    /// log.log_text(format_args!("{name}={value}"))?;
    /// assert!(rt; log.get_ref().as_slice() == b"started\nvolts=12\n".as_slice());
    /// log.flush_with_retries(3)?; // tries again after each of the first three faults
    /// let device = log.into_inner()?;
    /// assert!(rt; device.len() == 17);
    /// ```
    pub fn log_text<D: Display + Drop, E>(&mut self, text: D) -> std::result::Result<(), E>
    where
        ErrorKind: Answers<E>,
        requires in_memory { S < 2 ^ 63 }
        ensures logs { LogsText W.Write (D.output text) self.old (⟦<ErrorKind as Answers<E>>⟧.seen result) self.new }
    {
        <ErrorKind as Answers<E>>::answer(self.print_line(text))
    }

    // The body of `log_text`, with the only error type that there is.
    fn print_line<D: Display + Drop>(&mut self, text: D) -> Result<()>
        requires in_memory { S < 2 ^ 63 }
        ensures logs { LogsText W.Write (D.output text) self.old result self.new }
    {
        let printed = print_text::<D, S>(text);
        if printed.failed {
            return Err(Error::new(ErrorKind::Other, "formatter error"));
        }
        if !printed.fits {
            return Err(too_long());
        }
        self.log_bytes(printed.as_slice())
    }

    // The body of `log`.
    fn log_bytes(&mut self, line: &[u8]) -> Result<()>
        ensures logs { LogsLine W.Write line.now self.old result self.new }
    {
        if line.len() + 1 >= S {
            return Err(too_long());
        }
        if line.contains(&b'\n') {
            let text = "a line has a newline in it";
            return Err(Error::new(ErrorKind::InvalidInput, text));
        }
        self.inner.write_whole(line, b"\n")?;
        // Sends all. A fault is ignored: the next call meets it again.
        let _ = self.inner.make_room(S);
        Ok(())
    }

    /// Sends all held bytes, and flushes. After `Ok` nothing is held.
    ///
    /// # Errors
    /// Returns the sending's fault, or the device's error if its `flush` fails. Bytes that were not sent are still
    /// held, and a later call continues.
    pub fn flush(&mut self) -> Result<()>
        ensures law { FlushOf ⟦<BufWriter<W, S> as Write>⟧ (log_writer self.old) result (log_writer self.new) }
    {
        self.inner.flush()
    }

    /// Flushes like [`flush`](LineLog::flush), and tries again after each of the first `retries` faults. If the
    /// device tells that at most `retries` mishaps are to come, the call succeeds.
    ///
    /// # Errors
    /// Returns the fault of the last try if that try fails too.
    pub fn flush_with_retries(&mut self, retries: u32) -> Result<()>
        ensures { FlushTries ⟦<BufWriter<W, S> as Write>⟧ retries (log_writer self.old) result (log_writer self.new) }
    {
        flush_with_retries(&mut self.inner, retries)
    }

    /// Sends the held bytes and returns the writer below, which is not flushed. If nothing is held, it makes no call.
    /// Follows `std::io::BufWriter::into_inner`.
    ///
    /// # Errors
    /// Returns the sending's fault with the buffered writer, which holds the bytes that were not sent.
    pub fn into_inner(self) -> std::result::Result<W, IntoInnerError<BufWriter<W, S>>>
        ensures law { Unwraps W.Write writer_inner writer_buffer (log_writer self) result }
    {
        let LineLog { inner } = self;
        inner.into_inner()
    }
}
