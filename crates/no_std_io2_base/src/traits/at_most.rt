// [`read_at_most`], and what reads to the end by it.
ghost use Rattle.no_std_io2_base.specs.Read.{ReadAtMostLaw, ReadToEndLaw};

use super::read::Read;
use super::room::{LEAST_ROOM, open_room, reserve_room};
use super::take::min_with_limit;
use crate::error::Result;
use std::alloc::Allocator;

/// Appends at most `limit` of the bytes that `reader` has left to `buf`, and returns their number. If they are fewer
/// than `limit`, the reader is at its end. It ignores interruptions. This is what `read_to_end` of `reader.take(limit)`
/// does, for a reader that the caller keeps. Before its first read, and whenever no room is left, it makes room for at
/// least 32 bytes, or for as many as may still come if these are fewer; the vector grows as in `read_to_end`. So the
/// memory follows the bytes that come, and not `limit`. At limit 0 it makes no call. Rust's std has no such call.
///
/// # Errors
/// Returns the first fault that comes before the last of these bytes; the reader is then right after it. Returns
/// `OutOfMemory` if `buf` could not grow; the read that needed the room is not made. After either error, `buf` has its
/// old content, followed by the bytes that were taken. Never returns `Interrupted`.
///
/// ```rust
/// let mut r = Cursor::new(*b"abcde");
/// let mut head = Vec::<u8>::new(rt.alloc());
/// assert!(rt; read_at_most(&mut r, 2, &mut head)? == 2);
/// assert!(rt; head.as_slice() == b"ab".as_slice());
/// assert!(rt; r.position() == 2); // `r` continues after `ab`
/// ```
#[inline(always)]
pub fn read_at_most<R: Read, A: Allocator>(
    reader: &mut R,
    limit: u64,
    buf: &mut Vec<u8, A>,
) -> Result<usize>
    ensures law { ReadAtMostLaw R.Read limit reader.old buf.old result buf.new reader.new }
{
    let start = buf.len();
    let own = buf.capacity();
    let mut filled = start;
    let mut left = limit;
    reserve_room(buf, min_with_limit(LEAST_ROOM, limit), own, 0)?;
    'reads: while left > 0 {
        open_room(
            buf,
            filled,
            filled - start,
            own,
            min_with_limit(usize::MAX, left),
        )?;
        match reader.read(&mut buf[filled..]) {
            Ok(0) => {
                buf.truncate(filled);
                return Ok(filled - start);
            }
            Ok(n) => {
                filled += n;
                left -= n as u64;
            }
            Err(e) if e.is_interrupted() => {}
            Err(e) => {
                buf.truncate(filled);
                return Err(e);
            }
        }
    }
    buf.truncate(filled);
    Ok(filled - start)
}

/// Reads to the end like `read_to_end`, but first into the room that the vector has. Only if that
/// is not enough, it calls the reader's own `read_to_end`. Readers that have several parts use it
/// for each part after the first.
///
/// # Errors
/// Returns the errors that `read_to_end` returns, with the same state after them.
pub fn rest_to_end<R: Read, A: Allocator>(reader: &mut R, buf: &mut Vec<u8, A>) -> Result<usize>
    ensures law { ReadToEndLaw R.Read reader.old buf.old result buf.new reader.new }
{
    let start = buf.len();
    let room = buf.capacity() - start;
    let read = read_at_most(reader, room as u64, buf)?;
    if read < room {
        return Ok(read);
    }
    reader.read_to_end(buf)?;
    Ok(buf.len() - start)
}
