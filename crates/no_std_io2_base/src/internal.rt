//! Functions that `no_std_io2` shares with this crate. They are no part of the public interface.
ghost use Rattle.no_std_io2_base.specs.inner.Errors.{IsInvalidSeek, IsUnwritten};
ghost use Rattle.no_std_io2_base.specs.Errors.{IsUnexpectedEnd};

use crate::error::{Error, ErrorKind};
pub use crate::impls::{append_rest, copy_apart, copy_bytes};
pub use crate::traits::at_most::rest_to_end;
pub use crate::traits::pieces::{STEP, skip_steps, stands_among};

// The errors whose text is the library's own, each made in one place.

/// Makes the error of bytes that end before a buffer is full.
pub fn failed_to_fill() -> Error
    ensures { IsUnexpectedEnd result }
{
    Error::new(ErrorKind::UnexpectedEof, "failed to fill whole buffer")
}

/// Makes the error of a device that takes no byte of a write.
pub fn failed_to_write() -> Error
    ensures { IsUnwritten result }
{
    Error::new(ErrorKind::WriteZero, "failed to write whole buffer")
}

/// Makes the error of a seek to a place that there is not.
pub fn invalid_seek() -> Error
    ensures { IsInvalidSeek result }
{
    let text = "invalid seek to a negative or overflowing position";
    Error::new(ErrorKind::InvalidInput, text)
}
