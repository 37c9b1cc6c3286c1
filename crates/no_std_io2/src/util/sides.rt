//! [`copy_sided`], a copy whose error says which side failed.
ghost use Rattle.std.specs.Prelude.{◌≡◌, ◌<◌, ◌^◌, Some, length};
ghost use Rattle.no_std_io2_base.specs.inner.Errors.{error_display};
ghost use Rattle.no_std_io2.specs.inner.Copy.{side_error};
ghost use Rattle.no_std_io2.specs.Copy.{SidesCopied};

use no_std_io2_base::error::{Error, Result};
use no_std_io2_base::traits::{Read, Write};
use std::fmt;
use std::fmt::Display;

/// The side that ended a [`copy_sided`], a [`copy_with`] or a [`copy_lent`](super::copy_lent), with its error. Rust's
/// std has no such type.
#[derive(Debug, Drop)]
pub enum CopyError {
    /// The reader failed. The writer has accepted all bytes that were read.
    Read(Error),
    /// The writer failed. Up to a buffer of bytes that were read are lost, except in a
    /// [`copy_lent`](super::copy_lent), which loses none.
    Write(Error),
}

/// Keeps the error, and forgets the side.
impl From<CopyError> for Error {
    ghost from_gives = { λ side e. e ≡ side_error side };

    fn from(side: CopyError) -> Error {
        match side {
            CopyError::Read(e) | CopyError::Write(e) => e,
        }
    }
}

/// Prints the error.
impl Display for CopyError {
    ghost output = { λ side. Some (error_display (side_error side)) };

    fn fmt<W: fmt::Write>(&self, f: &mut fmt::Formatter<W>) -> fmt::Result {
        match self {
            CopyError::Read(e) | CopyError::Write(e) => Display::fmt(e, f),
        }
    }
}

impl std::error::Error for CopyError {}

/// Copies like [`copy`](super::copy), and says which side failed. So a program can go on with its next input after a
/// reader's fault, and stop after the writer's.
///
/// # Errors
/// Returns `Read` with the reader's first fault if there is one; the writer has then accepted all bytes before it.
/// Returns `Write` with the writer's fault if a `write_all` fails; up to `S` bytes that were read are then not
/// accepted, and are lost. Neither is an interruption.
///
/// ```rust
/// let mut from = Cursor::new(*b"abcde");
/// let mut full = Cursor::new([0u8; 2]);
/// let side = copy_sided::<_, _, 64>(&mut from, &mut full);
/// assert!(rt; matches!(side, Err(CopyError::Write(_)))); // two of the five bytes fit
/// ```
pub fn copy_sided<R: Read, W: Write, const S: usize>(
    reader: &mut R,
    writer: &mut W,
) -> std::result::Result<u64, CopyError>
    requires { S < 2 ^ 63 }
    ensures { SidesCopied R.Read W.Write S reader.old writer.old result reader.new writer.new }
{
    let mut buf = [0u8; S];
    copy_with(reader, writer, &mut buf[..])
}

/// Copies like [`copy_sided`], through the caller's buffer `buf`, which is not cleared first. A program that copies
/// many streams makes one buffer for all. If `buf` is empty, nothing is copied. Follows `std::io::copy`, which has a
/// buffer of its own.
///
/// # Errors
/// Returns the errors of [`copy_sided`]; after `Write`, up to `buf.len()` bytes that were read are lost.
///
/// ```rust
/// let mut room = [0u8; 64];
/// let mut device = Vec::<u8>::new(rt.alloc());
/// copy_with(&mut Cursor::new(*b"abc"), &mut device, &mut room)?;
/// copy_with(&mut Cursor::new(*b"de"), &mut device, &mut room)?;
/// assert!(rt; device.as_slice() == b"abcde".as_slice());
/// ```
pub fn copy_with<R: Read, W: Write>(
    reader: &mut R,
    writer: &mut W,
    buf: &mut [u8],
) -> std::result::Result<u64, CopyError>
    ensures { SidesCopied R.Read W.Write (length buf.old) reader.old writer.old result reader.new writer.new }
{
    let mut copied = 0u64;
    'reads: loop {
        match reader.read(buf) {
            Ok(0) => return Ok(copied),
            Ok(n) => match writer.write_all(&buf[..n]) {
                Ok(()) => copied = copied.saturating_add(n as u64),
                Err(e) => return Err(CopyError::Write(e)),
            },
            Err(e) if e.is_interrupted() => {}
            Err(e) => return Err(CopyError::Read(e)),
        }
    }
}
