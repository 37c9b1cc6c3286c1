//! [`read_to_string`], which reads a whole stream into a new string.
ghost use Rattle.no_std_io2_base.specs.Reads.{NewStringLaw};

use no_std_io2_base::error::Result;
use no_std_io2_base::traits::Read;
use std::alloc::Global;

/// Returns all remaining bytes of `reader` as a string from `alloc`. It ignores interruptions. To read on from the
/// reader afterwards, or to know after an error what was read, lend it and call
/// [`Read::read_to_string`](no_std_io2_base::traits::Read::read_to_string). Follows `std::io::read_to_string`.
///
/// # Errors
/// Returns the errors of `Read::read_to_string`: the reader's first fault, `InvalidData` if the bytes are not UTF-8,
/// and `OutOfMemory` if the string could not grow. The bytes that were taken are then lost.
///
/// ```rust
/// let text = read_to_string(rt.alloc(), Cursor::new(*b"abc"))?;
/// assert!(rt; text.as_str() == "abc");
/// ```
pub fn read_to_string<R: Read + Drop>(alloc: Global, mut reader: R) -> Result<String>
    ensures law { NewStringLaw R.Read reader result }
{
    let mut text = String::new(alloc);
    reader.read_to_string(alloc, &mut text)?;
    Ok(text)
}
