//! What a stream's call returns: a [`Result`], and in it perhaps an [`Error`], which is an
//! [`ErrorKind`] and perhaps a static text.
ghost use Rattle.std.specs.Prelude.{◌≡◌, Some, None};
ghost use Rattle.std.specs.Option.{option_map};
ghost use Rattle.no_std_io2_base.specs.inner.Kinds.{kind_text, error_text, is_interruption};
ghost use Rattle.no_std_io2_base.specs.Errors.{error_kind, IsOutOfMemory};
ghost use Rattle.no_std_io2_base.specs.inner.Errors.{error_display};

pub(crate) use crate::internal::{failed_to_fill, failed_to_write, invalid_seek};
use std::alloc::{AllocError, AllocFailed};
use std::fmt;

/// The kinds of errors, as in Rust's `std::io::ErrorKind`. They are ordered as they are declared.
///
/// ```rust
/// if !self.port.send(*byte) {
///     return Err(Error::from(ErrorKind::WouldBlock));
/// }
/// ```
#[derive(Clone, Copy, Debug, PartialEq, Eq, PartialOrd, Ord, Hash)]
pub enum ErrorKind {
    /// An entity was not found.
    NotFound,
    /// The operation lacked the privileges that it needs.
    PermissionDenied,
    /// The remote side refused the connection.
    ConnectionRefused,
    /// The remote side reset the connection.
    ConnectionReset,
    /// The remote side ended the connection.
    ConnectionAborted,
    /// There is no connection yet.
    NotConnected,
    /// The address is in use elsewhere.
    AddrInUse,
    /// The address does not exist, or is not local.
    AddrNotAvailable,
    /// A pipe has no reader any more.
    BrokenPipe,
    /// An entity already exists.
    AlreadyExists,
    /// The operation would have to block, and must not.
    WouldBlock,
    /// An argument is wrong.
    InvalidInput,
    /// The data is not of the form that the operation needs.
    InvalidData,
    /// The time, or the number of tries, is over.
    TimedOut,
    /// A write of some bytes took none of them: nothing more can be written.
    WriteZero,
    /// The call was interrupted. It accepted and gave no byte, and may be made again.
    Interrupted,
    /// A fault that is of no other kind.
    Other,
    /// The stream ended before all of the requested bytes had come.
    UnexpectedEof,
    /// The operation is not supported.
    Unsupported,
    /// An allocation failed.
    OutOfMemory,
    /// A fault of the system that has no kind.
    Uncategorized,
}

/// Prints the kind's text, as an error with only this kind does. Follows `std::io::ErrorKind`'s `Display`.
impl fmt::Display for ErrorKind {
    ghost output = { λ kind. Some (kind_text kind) };

    fn fmt<W: fmt::Write>(&self, f: &mut fmt::Formatter<W>) -> fmt::Result {
        write!(f, "{}", self.text())
    }
}

impl ErrorKind {
    // The text of each kind. An error without a text of its own prints it too.
    fn text(self) -> &'static str
        ensures { result.now ≡ kind_text self }
    {
        match self {
            ErrorKind::NotFound => "entity not found",
            ErrorKind::PermissionDenied => "permission denied",
            ErrorKind::ConnectionRefused => "connection refused",
            ErrorKind::ConnectionReset => "connection reset",
            ErrorKind::ConnectionAborted => "connection aborted",
            ErrorKind::NotConnected => "not connected",
            ErrorKind::AddrInUse => "address in use",
            ErrorKind::AddrNotAvailable => "address not available",
            ErrorKind::BrokenPipe => "broken pipe",
            ErrorKind::AlreadyExists => "entity already exists",
            ErrorKind::WouldBlock => "operation would block",
            ErrorKind::InvalidInput => "invalid input parameter",
            ErrorKind::InvalidData => "invalid data",
            ErrorKind::TimedOut => "timed out",
            ErrorKind::WriteZero => "write zero",
            ErrorKind::Interrupted => "operation interrupted",
            ErrorKind::Other => "other os error",
            ErrorKind::UnexpectedEof => "unexpected end of file",
            ErrorKind::Unsupported => "unsupported I/O error",
            ErrorKind::OutOfMemory => "out of memory",
            ErrorKind::Uncategorized => "uncategorized",
        }
    }
}

/// The error of all calls on streams: a kind, with or without a static text. It owns no memory.
/// Follows `std::io::Error`, without its boxed payload.
///
/// An error of kind [`ErrorKind::Interrupted`] is an interruption; every other error is a fault.
///
/// ```rust
/// let e = Error::new(ErrorKind::InvalidData, "no header");
/// assert!(rt; e.kind() == ErrorKind::InvalidData);
/// assert!(rt; e.get_ref().is_some());
/// let e = Error::from(ErrorKind::WouldBlock); // no text: it prints its kind's
/// assert!(rt; e.get_ref().is_none());
/// ```
#[derive(Drop)]
pub struct Error {
    repr: Repr,
}

// The two forms, named as they are printed. Together they are eight bytes shorter than a kind
// beside an option.
#[derive(Debug, Drop)]
enum Repr {
    Kind(ErrorKind),
    Custom {
        kind: ErrorKind,
        error: &'static str,
    },
}

/// The result of a stream's call. Follows `std::io::Result`.
///
/// ```rust
/// fn write(&mut self, buf: &[u8]) -> Result<usize> {
///     let n = buf.len().min(self.most);
///     self.taken.extend_from_slice(&buf[..n])?;
///     Ok(n)
/// }
/// ```
pub type Result<T> = std::result::Result<T, Error>;

impl Error {
    /// Makes an error of this kind, with this text. Follows `std::io::Error::new`.
    pub fn new(kind: ErrorKind, text: &'static str) -> Error
        ensures kind { error_kind result ≡ kind }
        ensures text { error_text result ≡ Some text.entry.now }
    {
        Error {
            repr: Repr::Custom { kind, error: text },
        }
    }

    /// Makes an error of kind [`ErrorKind::Other`], with this text. Follows `std::io::Error::other`.
    ///
    /// ```rust
    /// let e = Error::other("no carrier");
    /// assert!(rt; e.kind() == ErrorKind::Other);
    /// ```
    pub fn other(text: &'static str) -> Error
        ensures kind { error_kind result ≡ ErrorKind.Other }
        ensures text { error_text result ≡ Some text.entry.now }
    {
        Error::new(ErrorKind::Other, text)
    }

    /// Returns the kind. Follows `std::io::Error::kind`.
    pub fn kind(&self) -> ErrorKind
        ensures { result ≡ error_kind self.now }
    {
        match self.repr {
            Repr::Kind(kind) | Repr::Custom { kind, .. } => kind,
        }
    }

    /// Gets a reference to the text, if there is one. Follows `std::io::Error::get_ref`.
    ///
    /// ```rust
    /// let e = Error::other("no carrier");
    /// assert!(rt; e.get_ref().is_some());
    /// assert!(rt; e.into_inner() == Some("no carrier"));
    /// ```
    pub fn get_ref(&self) -> Option<&&'static str>
        ensures { option_map (λ s. s.now.now) result ≡ error_text self.now }
    {
        match &self.repr {
            Repr::Kind(_) => None,
            Repr::Custom { error, .. } => Some(error),
        }
    }

    /// Returns the text, if there is one. Follows `std::io::Error::into_inner`.
    pub fn into_inner(self) -> Option<&'static str>
        ensures { option_map (λ s. s.now) result ≡ error_text self }
    {
        match self.repr {
            Repr::Kind(_) => None,
            Repr::Custom { error, .. } => Some(error),
        }
    }

    /// Returns whether this is an interruption: the call accepted and gave no byte, and may be made again.
    /// Follows the test of the same name inside Rust's `std::io`.
    ///
    /// ```rust
    /// assert!(rt; Error::from(ErrorKind::Interrupted).is_interrupted());
    /// assert!(rt; !Error::from(ErrorKind::TimedOut).is_interrupted());
    /// ```
    pub fn is_interrupted(&self) -> bool
        ensures { result ≡ is_interruption (error_kind self.now) }
    {
        matches!(self.kind(), ErrorKind::Interrupted)
    }
}

/// Makes an error with only this kind, and no text.
impl From<ErrorKind> for Error {
    ghost from_gives = { λ kind e. (error_kind e ≡ kind) × (error_text e ≡ None) };

    fn from(kind: ErrorKind) -> Error {
        Error {
            repr: Repr::Kind(kind),
        }
    }
}

/// Makes an error with only the kind [`ErrorKind::OutOfMemory`].
impl From<AllocError> for Error {
    ghost from_gives = { λ _ e. IsOutOfMemory e };

    fn from(_refused: AllocError) -> Error {
        Error::from(ErrorKind::OutOfMemory)
    }
}

/// Makes an error with only the kind [`ErrorKind::OutOfMemory`], for a `push` that fails. The value
/// that was not pushed is dropped.
impl<T: Drop> From<AllocFailed<T>> for Error {
    ghost from_gives = { λ _ e. IsOutOfMemory e };

    fn from(_refused: AllocFailed<T>) -> Error {
        Error::from(ErrorKind::OutOfMemory)
    }
}

/// Prints what a `std::io::Error` of the same kind and text prints: `Kind(NotFound)`, or
/// `Custom { kind: TimedOut, error: "late" }`.
impl fmt::Debug for Error {
    fn fmt<W: fmt::Write>(&self, f: &mut fmt::Formatter<W>) -> fmt::Result {
        fmt::Debug::fmt(&self.repr, f)
    }
}

/// Prints the text, or else the kind's text.
impl fmt::Display for Error {
    ghost output = { λ e. Some (error_display e) };

    fn fmt<W: fmt::Write>(&self, f: &mut fmt::Formatter<W>) -> fmt::Result {
        let text = match self.repr {
            Repr::Kind(kind) => kind.text(),
            Repr::Custom { error, .. } => error,
        };
        write!(f, "{text}")
    }
}

impl std::error::Error for Error {}
