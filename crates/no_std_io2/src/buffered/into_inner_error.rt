//! [`IntoInnerError`], the error of `into_inner` of a buffered writer.
ghost use Rattle.std.specs.Prelude.{Some, ◌≡◌};
ghost use Rattle.no_std_io2_base.specs.inner.Errors.{error_display};
ghost use Rattle.no_std_io2.specs.inner.BufWriter.{into_inner_error_writer, into_inner_error_cause};

use no_std_io2_base::error::Error;
use std::fmt;
use std::fmt::{Debug, Display, Formatter};

/// The error of `into_inner` of a [`BufWriter`](super::BufWriter) and of a
/// [`LineWriter`](super::LineWriter): why the sending failed, and the writer, which holds the
/// bytes that were not sent. Follows `std::io::IntoInnerError`.
///
/// ```rust
/// let mut w = BufWriter::<_, 8>::new(Cursor::new([0u8; 0])); // a device that takes no byte
/// w.write_all(b"abc")?;
/// let failed = w.into_inner().err().ok_or("sent")?;
/// assert!(rt; failed.error().kind() == ErrorKind::WriteZero);
/// let w = failed.into_inner();
/// assert!(rt; w.buffer() == b"abc".as_slice());
/// ```
#[derive(Drop)]
pub struct IntoInnerError<W> {
    writer: W,
    error: Error,
}

impl<W> IntoInnerError<W> {
    pub(super) fn new(writer: W, error: Error) -> IntoInnerError<W>
        ensures writer { into_inner_error_writer result ≡ writer }
        ensures cause { into_inner_error_cause result ≡ error }
    {
        IntoInnerError { writer, error }
    }

    /// Returns the error that stopped the sending. Follows `std::io::IntoInnerError::error`.
    pub fn error(&self) -> &Error
        ensures { result.now ≡ into_inner_error_cause self.now }
    {
        &self.error
    }

    /// Returns the error that stopped the sending, and drops the writer. The drop tries once more to
    /// send. Follows `std::io::IntoInnerError::into_error`.
    pub fn into_error(self) -> Error
    where
        W: Drop,
        ensures { result ≡ into_inner_error_cause self }
    {
        self.error
    }

    /// Returns the buffered writer, to be used again. Follows `std::io::IntoInnerError::into_inner`.
    pub fn into_inner(self) -> W
        ensures { result ≡ into_inner_error_writer self }
    {
        self.writer
    }

    /// Returns the error that stopped the sending, and the buffered writer.
    /// Follows `std::io::IntoInnerError::into_parts`.
    ///
    /// ```rust
    /// let mut w = BufWriter::<_, 8>::new(Cursor::new([0u8; 0])); // a device that takes no byte
    /// w.write_all(b"abc")?;
    /// let (error, w) = w.into_inner().err().ok_or("sent")?.into_parts();
    /// assert!(rt; error.kind() == ErrorKind::WriteZero);
    /// assert!(rt; w.buffer() == b"abc".as_slice());
    /// ```
    pub fn into_parts(self) -> (Error, W)
        ensures error { result.0 ≡ into_inner_error_cause self }
        ensures writer { result.1 ≡ into_inner_error_writer self }
    {
        (self.error, self.writer)
    }
}

/// Keeps the error and drops the writer. If the writer is a buffered one, the drop tries once more to send.
impl<W: Drop> From<IntoInnerError<W>> for Error {
    ghost from_gives = { λ x y. y ≡ into_inner_error_cause x };

    fn from(e: IntoInnerError<W>) -> Error {
        e.error
    }
}

/// Prints the error that stopped the sending.
impl<W> Display for IntoInnerError<W> {
    ghost output = { λ e. Some (error_display (into_inner_error_cause e)) };

    fn fmt<V: fmt::Write>(&self, f: &mut Formatter<V>) -> fmt::Result {
        Display::fmt(&self.error, f)
    }
}

impl<W: Debug> Debug for IntoInnerError<W> {
    fn fmt<V: fmt::Write>(&self, f: &mut Formatter<V>) -> fmt::Result {
        f.debug_struct("IntoInnerError")
            .field("writer", &self.writer)
            .field("error", &self.error)
            .finish()
    }
}

impl<W: Debug + Drop> std::error::Error for IntoInnerError<W> {}
