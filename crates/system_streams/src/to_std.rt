// [`ToStd`], which makes a stream of this library one of Rust's `std::io`.
ghost use Rattle.std.specs.{Prelude.{◌≡◌, ℕ, Some, Result}, Io.{ReadsAtMost, KnownBytes.{ReadConsumes, Keeps}, Seek.{SeekMoves}}};
ghost use Rattle.std.specs.IoError.{error_kind as std_error_kind};
ghost use Rattle.no_std_io2.specs.{declared.io.{Error.{Error}, SeekFrom.{SeekFrom}}, Errors.{error_kind}, Takes.{tells}, Read.{ReadLaw}};
ghost use Rattle.no_std_io2.specs.{Seek.{SeekLaw}, Writers.{FlushOf, WriteOf}};
ghost use Rattle.system_streams.specs.Patient.{std_place};
ghost use Rattle.system_streams.specs.ToStd.{std_inner, std_kind, bytes_to_come, content_of, position_of, SameAnswer, accepted_so_far};

use no_std_io2::io::{Error, ErrorKind, Read, Seek, SeekFrom, Write};
use std::io;
use std::io::ErrorKind as StdKind;

/// Makes a reader, writer or seeker of this library one of Rust's `std::io`, for code that needs those.
///
/// Each call is one call of the stream. In contracts of `std::io`, a writer has the bytes that it
/// accepted. A reader that tells its events has the bytes among them left; about the bytes of any
/// other reader nothing is known. A seeker that tells its store has that content and that position.
///
/// # Errors
/// A call returns the stream's error, with the kind of the same name and at most the first 80 bytes
/// of its text. That the text stays is tested, since no contract of `std` names the text of an error.
/// The stream is then in the state that its own call promises. An error among told events is returned
/// when it comes, and the events after it are still to come.
///
/// ```rust
/// let mut r = ToStd::new(Patient::new(b"a".as_slice(), 1));
/// let refusal = io::Read::read(&mut r, &mut [0u8; 1]).err().ok_or("read")?;
/// ```
#[derive(Drop)]
pub struct ToStd<T> {
    inner: T,
}

impl<T> ToStd<T> {
    /// Wraps a stream.
    pub fn new(inner: T) -> ToStd<T>
        ensures { std_inner result ≡ inner }
    {
        ToStd { inner }
    }

    /// Gets a reference to the stream.
    pub fn get_ref(&self) -> &T
        ensures { result.now ≡ std_inner self.now }
    {
        &self.inner
    }

    /// Returns the stream as it is now.
    pub fn into_inner(self) -> T
        ensures { result ≡ std_inner self }
    {
        self.inner
    }
}

fn std_kind(kind: ErrorKind) -> StdKind
    ensures { result ≡ std_kind kind }
{
    match kind {
        ErrorKind::NotFound => StdKind::NotFound,
        ErrorKind::PermissionDenied => StdKind::PermissionDenied,
        ErrorKind::ConnectionRefused => StdKind::ConnectionRefused,
        ErrorKind::ConnectionReset => StdKind::ConnectionReset,
        ErrorKind::ConnectionAborted => StdKind::ConnectionAborted,
        ErrorKind::NotConnected => StdKind::NotConnected,
        ErrorKind::AddrInUse => StdKind::AddrInUse,
        ErrorKind::AddrNotAvailable => StdKind::AddrNotAvailable,
        ErrorKind::BrokenPipe => StdKind::BrokenPipe,
        ErrorKind::AlreadyExists => StdKind::AlreadyExists,
        ErrorKind::WouldBlock => StdKind::WouldBlock,
        ErrorKind::InvalidInput => StdKind::InvalidInput,
        ErrorKind::InvalidData => StdKind::InvalidData,
        ErrorKind::TimedOut => StdKind::TimedOut,
        ErrorKind::WriteZero => StdKind::WriteZero,
        ErrorKind::Interrupted => StdKind::Interrupted,
        ErrorKind::Other => StdKind::Other,
        ErrorKind::UnexpectedEof => StdKind::UnexpectedEof,
        ErrorKind::Unsupported => StdKind::Unsupported,
        ErrorKind::OutOfMemory => StdKind::OutOfMemory,
        ErrorKind::Uncategorized => StdKind::Uncategorized,
    }
}

// The error with the same kind and text.
pub(crate) fn std_error(e: Error) -> io::Error
    ensures { std_error_kind result ≡ std_kind (error_kind e) }
{
    let kind = std_kind(e.kind());
    match e.into_inner() {
        Some(text) => io::Error::new(kind, text),
        None => io::Error::from(kind),
    }
}

impl<R: Read> io::Read for ToStd<R> {
    ghost remaining = { λ s. bytes_to_come (tells R.Read (std_inner s)) };

    fn read(&mut self, buf: &mut [u8]) -> io::Result<usize>
        ensures bound { ReadsAtMost result buf.new }
        ensures bytes { ReadConsumes (⟦<Self as io::Read>⟧.remaining self.old) (⟦<Self as io::Read>⟧.remaining self.new)
            result buf.new }

        // It makes one call of the reader, and returns its result.
        ensures law { (reply : Result ℕ Error) × SameAnswer reply result
            × ReadLaw R.Read (std_inner self.old) buf.old reply buf.new (std_inner self.new) }
    {
        match self.inner.read(buf) {
            Ok(n) => Ok(n),
            Err(e) => Err(std_error(e)),
        }
    }
}

impl<W: Write> io::Write for ToStd<W> {
    ghost contents = { λ s. Some (accepted_so_far (W.told (std_inner s))) };

    fn write(&mut self, buf: &[u8]) -> io::Result<usize>
        // It makes one call of the writer, and returns its result.
        ensures law { (reply : Result ℕ Error) × SameAnswer reply result
            × WriteOf W.Write (std_inner self.old) buf.now reply (std_inner self.new) }
    {
        match self.inner.write(buf) {
            Ok(n) => Ok(n),
            Err(e) => Err(std_error(e)),
        }
    }

    fn flush(&mut self) -> io::Result<()>
        // It makes one call of the writer, and returns its result.
        ensures law { (reply : Result (Unit {0}) Error) × SameAnswer reply result
            × FlushOf W.Write (std_inner self.old) reply (std_inner self.new) }
    {
        match self.inner.flush() {
            Ok(()) => Ok(()),
            Err(e) => Err(std_error(e)),
        }
    }
}

fn own_place(place: io::SeekFrom) -> SeekFrom
    ensures { std_place result ≡ place }
{
    match place {
        io::SeekFrom::Start(n) => SeekFrom::Start(n),
        io::SeekFrom::End(offset) => SeekFrom::End(offset),
        io::SeekFrom::Current(offset) => SeekFrom::Current(offset),
    }
}

impl<T: Seek> io::Seek for ToStd<T> {
    ghost stream_position = { λ s. position_of (T.store (std_inner s)) };

    ghost stream_bytes = { λ s. content_of (T.store (std_inner s)) };

    fn seek(&mut self, to: io::SeekFrom) -> io::Result<u64>
        ensures moves { SeekMoves (⟦<Self as io::Seek>⟧.stream_position self.old) (⟦<Self as io::Seek>⟧.stream_position self.new)
            (⟦<Self as io::Seek>⟧.stream_bytes self.old) to result }
        ensures bytes { Keeps (⟦<Self as io::Seek>⟧.stream_bytes self.old) (⟦<Self as io::Seek>⟧.stream_bytes self.new) }

        // It makes one call of the seeker, and returns its result.
        ensures law { (place : SeekFrom) × (reply : Result ℕ Error) × (std_place place ≡ to) × SameAnswer reply result
            × SeekLaw T.Seek (std_inner self.old) place reply (std_inner self.new) }
    {
        match self.inner.seek(own_place(to)) {
            Ok(at) => Ok(at),
            Err(e) => Err(std_error(e)),
        }
    }
}
