// [`Write`], a sink of bytes.
ghost use Rattle.std.specs.Prelude.{◌≡◌, ◌+◌, [], Ok, OnOk, length};
ghost use Rattle.no_std_io2_base.specs.Write.{WriteLaw, FlushLaw, WriteAllLaw, WriteRestLaw};
ghost use Rattle.no_std_io2_base.specs.Text.{WriteFmtLaw};
ghost use Rattle.no_std_io2_base.specs.Moves.{WriterState, Sends};
ghost use Rattle.no_std_io2_base.specs.Calls.{WriteCall};

use super::text::{Answers, LentWriter, PrintedWriter, answer_of, print_to};
use crate::error::{ErrorKind, Result, failed_to_write};
use std::fmt::Display;
use std::marker::Brand;

/// A sink of bytes. Follows Rust's `std::io::Write`.
///
/// A writer tells contracts the bytes that are *out*, the bytes that are *held* (accepted and not
/// yet out), the *mishaps* to come if it knows them, and a number of *turns*. A mishap is an `Err`,
/// of its error's kind, or an `Ok(0)` of a `write` of some bytes, of kind `WriteZero`.
///
/// Each call keeps this law. `out` followed by `held` is afterwards what it was, followed by
/// exactly the accepted bytes. These are what the result of a `write` reports, and what is gone from
/// the slice of a `write_rest`. Of a `write_all` they are all bytes after `Ok`, and after `Err` some
/// first ones. What is out stays out. Told mishaps stay told, and each one that happened is removed
/// from them. An interruption spends a turn, so that a loop of retries ends.
///
/// ```rust
/// let mut device = Vec::<u8>::new(rt.alloc());
/// device.write_all(b"hello ")?;
/// device.write_all(b"world")?;
/// device.flush()?;
/// assert!(rt; device.as_slice() == b"hello world".as_slice());
/// ```
pub trait Write {
    // What the writer tells: the bytes out and held, the mishaps to come, and the turns. A writer of
    // your own has to define only this member.
    ghost told: { Self → WriterState };

    // Whether the writer accepts every write whole from now on, and never fails, if it tells that no
    // mishap is to come. By default it claims nothing.
    ghost takes_all: { Self → Type 0 } = { λ _. ⊥ };

    // What one call with its result may do to the writer. By default it may do anything.
    ghost may: { Self → WriteCall → Self → Type 0 } = { λ _ _ _. Unit {0} };

    /// Writes some of `buf`, from its front. `Ok(n)` means that its first `n` bytes were accepted,
    /// and `n` is at most its length. `Err` means that none was. Follows `std::io::Write::write`.
    ///
    /// # Errors
    /// Returns the device's error if it fails; nothing was then accepted. After an interruption the
    /// call may be made again.
    ///
    /// ```rust
    /// let mut room = [0u8; 4];
    /// let mut w = Cursor::new(&mut room[..]);
    /// assert!(rt; w.write(b"abc")? == 3);
    /// assert!(rt; w.write(b"def")? == 1); // `ef` was not accepted
    /// ```
    fn write(&mut self, buf: &[u8]) -> Result<usize>
        ensures law { WriteLaw told takes_all may self.old buf.now result self.new };

    /// Sends all held bytes to the device. After `Ok` nothing is held. After `Err` no accepted byte
    /// is lost: each is out or held. Follows `std::io::Write::flush`.
    ///
    /// # Errors
    /// Returns the device's error if it fails, and `WriteZero` if a buffer's device takes no byte.
    /// Bytes that were not passed on are still held, and a later flush continues with them.
    ///
    /// ```rust
    /// let mut w = BufWriter::<Vec<u8>, 8>::new(Vec::new(rt.alloc()));
    /// w.write_all(b"abc")?;
    /// assert!(rt; w.get_ref().is_empty()); // `abc` is held
    /// w.flush()?;
    /// assert!(rt; w.get_ref().as_slice() == b"abc".as_slice());
    /// ```
    fn flush(&mut self) -> Result<()>
        ensures law { FlushLaw told takes_all may self.old result self.new };

    /// Writes the whole of `buf`, and ignores interruptions. An empty buffer makes no call.
    /// Follows `std::io::Write::write_all`.
    ///
    /// # Errors
    /// Returns `WriteZero` if the device takes no byte, and the device's first fault if it fails.
    /// Then some first bytes of `buf` were accepted, possibly none or all, and the caller cannot
    /// know how many. If it makes the same call again, these bytes are sent twice. A caller that
    /// must not send a byte twice calls [`write_rest`](Write::write_rest). Never returns
    /// `Interrupted`.
    ///
    /// ```rust
    /// let mut room = [0u8; 4];
    /// let mut w = Cursor::new(&mut room[..]);
    /// w.write_all(b"abcd")?;
    /// assert!(rt; w.write_all(b"e").is_err()); // no room: `WriteZero`
    /// ```
    fn write_all(&mut self, buf: &[u8]) -> Result<()>
        ensures law { WriteAllLaw told takes_all may self.old buf.now result self.new }
    {
        let mut rest = buf;
        self.write_rest(&mut rest)
    }

    /// Writes the bytes of `rest`, and removes those that were accepted from its front. So after an
    /// error `rest` is exactly what is still to be written; the same call continues there, and no byte
    /// goes out twice. It ignores interruptions; an empty `rest` makes no call. Rust's std has no such
    /// call. Its law allows only this loop of writes, also if the type has a `write_all` of its own.
    ///
    /// # Errors
    /// Returns `WriteZero` if the device takes no byte, and the device's first fault if it fails.
    /// The bytes left in `rest` were then not accepted. Never returns `Interrupted`.
    ///
    /// ```rust
    /// pub fn send_with_one_retry<W: Write>(device: &mut W, rest: &mut &[u8]) -> Result<()>
    ///     ensures sends { Sends (W.told device.old) rest.old.now result (W.told device.new) rest.new.now }
    ///     ensures done { OnOk result (rest.new.now ≡ []) }
    ///     ensures calls { Tries (WriteRestOf W.Write) 1 device.old rest.old.now result device.new rest.new.now }
    /// {
    ///     if device.write_rest(rest).is_ok() {
    ///         return Ok(());
    ///     }
    ///     device.write_rest(rest)
    /// }
    /// ```
    fn write_rest(&mut self, rest: &mut &[u8]) -> Result<()>
        ensures law { WriteRestLaw told takes_all may self.old rest.old.now result self.new rest.new.now }
    {
        'writes: while !rest.is_empty() {
            match self.write(rest) {
                Ok(0) => return Err(failed_to_write()),
                Ok(n) => *rest = &rest[n..],
                Err(e) if e.is_interrupted() => {}
                Err(e) => return Err(e),
            }
        }
        Ok(())
    }

    /// Writes a formatted text, for `write!` and `writeln!`: each printed piece as by `write_all`,
    /// without allocation. Follows `std::io::Write::write_fmt`.
    ///
    /// # Errors
    /// Returns the error of a `write_all` if that fails; some first bytes of the text were then
    /// accepted, and the device gets no more calls. Returns `formatter error` if the text's own
    /// `fmt` fails, with the kind of the device's error if that had failed before, and else
    /// `Other`; some bytes, possibly none, were then accepted.
    ///
    /// ```rust
    /// let mut device = Vec::<u8>::new(rt.alloc());
    /// let n = 3;
    /// write!(device, "n is {n}\n")?;
    /// assert!(rt; device.as_slice() == b"n is 3\n".as_slice());
    /// ```
    final fn write_fmt<D: Display + Drop, E>(&mut self, text: D) -> std::result::Result<(), E>
    where
        Self: Sized,
        ErrorKind: Answers<E>,
        ensures law { WriteFmtLaw told takes_all may self.old (D.output text)
            (⟦<ErrorKind as Answers<E>>⟧.seen result) self.new }
    {
        let PrintedWriter {
            inner,
            met,
            formatted,
        } = print_to::<Self, D, Brand>(LentWriter { inner: self }, text);
        // No effect at run time: the proof reads what the writer tells from this use.
        let _ = &*inner;
        <ErrorKind as Answers<E>>::answer(answer_of(formatted, met))
    }

    /// Lends the writer itself, for an adaptor that would take it by value. Follows `std::io::Write::by_ref`.
    ///
    /// ```rust
    /// let mut device = Vec::<u8>::new(rt.alloc());
    /// let mut w = BufWriter::<&mut Vec<u8>, 8>::new(device.by_ref());
    /// w.write_all(b"abc")?;
    /// drop(w); // sends `abc`
    /// assert!(rt; device.as_slice() == b"abc".as_slice());
    /// ```
    final fn by_ref(&mut self) -> &mut Self
    where
        Self: Sized,
        ensures name { result.ghost_name ≡ self.entry.ghost_name }
        ensures value { result.now ≡ self.old }
    {
        self
    }
}
