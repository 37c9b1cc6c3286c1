//! [`read_exact_at`], a seek followed by a read.
ghost use Rattle.no_std_io2_base.specs.Reads.{ReadAtLaw};

use no_std_io2_base::error::Result;
use no_std_io2_base::traits::{Read, Seek, SeekFrom};

/// Fills `buf` with the bytes at a place, by a `seek` and a `read_exact`. Afterwards the position is right after
/// these bytes. Follows `std::os::unix::fs::FileExt::read_exact_at`, which does not move the position.
///
/// # Errors
/// Returns the error of `seek` if that fails; no byte was then read. Returns the error of `read_exact` if that fails;
/// the stream is then as that call left it. Over a told store, neither fails if the place exists and has enough bytes
/// after it.
///
/// ```rust
/// let mut r = Cursor::new(*b"abcdef");
/// let mut buf = [0u8; 2];
/// read_exact_at(&mut r, SeekFrom::End(-3), &mut buf)?;
/// assert!(rt; buf == *b"de");
/// ```
pub fn read_exact_at<R: Read + Seek>(reader: &mut R, at: SeekFrom, buf: &mut [u8]) -> Result<()>
    ensures { ReadAtLaw R.Seek R.Read reader.old at buf.old result buf.new reader.new }
{
    reader.seek(at)?;
    reader.read_exact(buf)
}
