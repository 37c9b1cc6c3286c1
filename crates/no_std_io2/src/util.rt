//! Functions over streams: [`copy`] and [`copy_lent`] copy a reader to a writer, [`skip`] skips bytes,
//! [`read_exact_at`] reads at a place, [`read_to_string`] reads all into a new string, and [`write_with_retries`] and
//! [`flush_with_retries`] try again after a fault.
//! [`empty`], [`repeat`] and [`sink`] make streams without a device.
ghost use Rattle.std.specs.Prelude.{◌<◌, ◌^◌};
ghost use Rattle.no_std_io2.specs.Copy.{Copied};
ghost use Rattle.no_std_io2_base.specs.Reads.{Skipped};

use no_std_io2_base::error::Result;
use no_std_io2_base::internal::failed_to_fill;
use no_std_io2_base::traits::{BufRead, Read, Write};

mod lent;
mod read_at;
mod retries;
mod sides;
mod strings;

pub use lent::copy_lent;
pub use no_std_io2_base::makers::{empty, repeat, sink};
pub use no_std_io2_base::util::{Empty, Repeat, Sink};
pub use read_at::read_exact_at;
pub use retries::{flush_with_retries, write_with_retries};
pub use sides::{CopyError, copy_sided, copy_with};
pub use strings::read_to_string;

/// Copies all remaining bytes of `reader` to `writer`, through a buffer of `S` bytes on the stack. It returns their
/// number, or `u64::MAX` if there are more. It ignores the reader's interruptions, passes on what each read gives by
/// one `write_all`, and does not flush `writer`. Follows `std::io::copy`.
///
/// From a slice, a cursor or a `BufReader`, take [`copy_lent`], which passes on the bytes that the reader lends, and
/// copies none of them twice. To copy many streams through one buffer of your own, take [`copy_with`].
///
/// If `S` is above 0 and each read gives as many bytes as fit, `copy` makes one read for each `S`
/// bytes, rounded up, and one more, which finds the end.
///
/// `S` is from 0 to 2^63 - 1. If `S` is 0, nothing is copied, and the result is 0, or the reader's
/// fault if the reader returns one.
///
/// # Errors
/// Returns the reader's first fault if there is one; the writer has then accepted all bytes before
/// it. Returns the writer's fault if a `write_all` fails; up to `S` bytes that were read are then not
/// accepted, and are lost. Never returns `Interrupted`.
///
/// ```rust
/// let mut from = Cursor::new(*b"abcde");
/// let mut to = Vec::<u8>::new(rt.alloc());
/// assert!(rt; copy::<_, _, 64>(&mut from, &mut to)? == 5);
/// assert!(rt; to.as_slice() == b"abcde".as_slice());
/// ```
pub fn copy<R: Read, W: Write, const S: usize>(reader: &mut R, writer: &mut W) -> Result<u64>
    requires { S < 2 ^ 63 }
    ensures { Copied R.Read W.Write S reader.old writer.old result reader.new writer.new }
{
    let mut buf = [0u8; S];
    let copied = copy_with(reader, writer, &mut buf[..])?;
    Ok(copied)
}

/// Skips the next `left` bytes of `reader` without copying them, and ignores interruptions.
/// Afterwards `left` is the number of bytes that are still to be skipped: 0 after `Ok`. If `left`
/// is 0, no call is made. `std::io` has no such function; there you copy a `Take` into a `Sink`.
///
/// # Errors
/// Returns the first fault that comes before all `left` bytes are skipped; the reader is then right after it. Returns
/// `UnexpectedEof` if the bytes end too early. After either error the bytes before it are skipped, and `left` is the
/// number of missing bytes, so the same call continues. Never returns `Interrupted`.
///
/// ```rust
/// let mut r = Cursor::new(*b"abcde");
/// skip(&mut r, &mut 3)?;
/// assert!(rt; r.fill_buf()? == b"de".as_slice());
/// let mut left = 5;
/// assert!(rt; skip(&mut r, &mut left).is_err());
/// assert!(rt; left == 3); // two of them were there
/// ```
#[tactic(auto, using(no_std_io2_base::proofs::PieceLoops::portions_none))]
pub fn skip<B: BufRead>(reader: &mut B, left: &mut u64) -> Result<()>
    ensures { Skipped B.Read reader.old left.old result left.new reader.new }
{
    'pieces: while *left > 0 {
        match reader.fill_buf() {
            Ok(lent) => {
                if lent.is_empty() {
                    return Err(failed_to_fill());
                }
                let len = (lent.len() as u64).min(*left);
                reader.consume(len as usize);
                *left -= len;
            }
            Err(e) if e.is_interrupted() => {}
            Err(e) => return Err(e),
        }
    }
    Ok(())
}
