//! [`copy_lent`], a copy without a buffer of its own.
ghost use Rattle.no_std_io2.specs.Copy.{LentCopied};

use super::sides::CopyError;
use no_std_io2_base::traits::{BufRead, Write};

/// Copies all remaining bytes of `reader` to `writer`, and returns their number, or `u64::MAX` if there are more. Each
/// piece that the reader lends goes to the writer by one `write_all`, and is then consumed. It ignores the reader's
/// interruptions, and does not flush `writer`. Follows `std::io::copy`, which has a buffer of its own.
///
/// Take it instead of [`copy`](super::copy) if the reader has the bytes already, as a slice, a cursor and a `BufReader`
/// have: no byte is copied twice, and no buffer has to fit on the stack. Take [`copy`](super::copy) if the reader lends
/// few bytes at a time and each write is dear.
///
/// # Errors
/// Returns `Read` with the reader's first fault if there is one; the writer has then accepted all bytes before
/// it. Returns `Write` with the writer's fault if a `write_all` fails. The piece of that call is not consumed:
/// the reader still lends it, and the writer has accepted some first bytes of it, possibly none or all. Neither
/// is an interruption.
///
/// ```rust
/// let mut from = Cursor::new(*b"abcde");
/// let mut to = Vec::<u8>::new(rt.alloc());
/// assert!(rt; copy_lent(&mut from, &mut to)? == 5);
/// assert!(rt; to.as_slice() == b"abcde".as_slice());
/// ```
pub fn copy_lent<R: BufRead, W: Write>(
    reader: &mut R,
    writer: &mut W,
) -> std::result::Result<u64, CopyError>
    ensures { LentCopied R.Read W.Write reader.old writer.old result reader.new writer.new }
{
    let mut copied = 0u64;
    'pieces: loop {
        match reader.fill_buf() {
            Ok(lent) => {
                if lent.is_empty() {
                    return Ok(copied);
                }
                let len = lent.len();
                match writer.write_all(lent) {
                    Ok(()) => {
                        reader.consume(len);
                        copied = copied.saturating_add(len as u64);
                    }
                    Err(e) => return Err(CopyError::Write(e)),
                }
            }
            Err(e) if e.is_interrupted() => {}
            Err(e) => return Err(CopyError::Read(e)),
        }
    }
}
