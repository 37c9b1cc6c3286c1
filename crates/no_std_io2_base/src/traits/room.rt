// The room that `read_to_end` makes in a vector for its reads.
ghost use Rattle.std.specs.Prelude.{◌≡◌, take, ◌+◌, ◌≤◌, ◌<◌, IfErr, OnOk, OnErr, vec_len, vec_capacity};
ghost use Rattle.no_std_io2_base.specs.Errors.{IsOutOfMemory};
ghost use Rattle.no_std_io2_base.specs.inner.InMemory.{Reserves};

use crate::error::Result;
use std::alloc::Allocator;

/// The least number of bytes for which `read_to_end` makes room if there is none. For a reader with
/// a loop of its own.
pub(crate) const LEAST_ROOM: usize = 32;

// The least and the most zeros by which `open_room` extends a vector at a time, if there is room for them.
const FIRST_OPENED: usize = 8 * 1024;

const MOST_OPENED: usize = 128 * 1024;

// A growth by the wanted bytes alone moves at most this many bytes for each one that the call has read.
const MOST_MOVED: usize = 8;

/// Makes room for `wanted` more bytes, in a vector of which `read` bytes came in this call, and whose capacity was `own`
/// before it. Its first growth is by these bytes alone, so that a vector of just the right size does not double. The
/// next ones double it, and so does the first one of a vector that had far more bytes before. So the bytes that growths
/// move are at most proportional to those that are read, also if many calls append to one vector.
///
/// # Errors
/// Returns `OutOfMemory` if there was too little room and the vector could not grow; nothing
/// then changes.
pub(crate) fn reserve_room<A: Allocator>(
    buf: &mut Vec<u8, A>,
    wanted: usize,
    own: usize,
    read: usize,
) -> Result<()>
    ensures { Reserves wanted buf.old result buf.new }
{
    if buf.capacity() == own && buf.len() / MOST_MOVED <= read.saturating_add(LEAST_ROOM) {
        buf.reserve_exact(wanted)?;
    } else {
        buf.reserve(wanted)?;
    }
    Ok(())
}

/// Makes room for `wanted` more bytes before the first of the `coming` bytes is read. A full vector has the capacity that
/// its owner chose, since a read to the end leaves some room, so it counts as read in this call.
///
/// # Errors
/// Returns `OutOfMemory` as `reserve_room` does.
pub(crate) fn reserve_first<A: Allocator>(
    buf: &mut Vec<u8, A>,
    wanted: usize,
    coming: usize,
) -> Result<()>
    ensures { Reserves wanted buf.old result buf.new }
{
    let own = buf.capacity();
    let read = if buf.len() == own { own } else { coming };
    reserve_room(buf, wanted, own, read)
}

/// Extends `buf` by zeros for the next read of at most `most` bytes, unless some are left after the first `filled` bytes.
/// The number of zeros is the number of bytes read so far, within bounds. So each byte is zeroed
/// once, and few zeros are never overwritten by a read. If the capacity is used up, it first grows
/// by at least 32 bytes, or by `most` if that is less; `own` was the capacity before the call that reads.
///
/// # Errors
/// Returns `OutOfMemory` if `buf` could not grow; nothing then changes.
// Inlined, with `read_at_most`: else a `read_to_end` of a `Take` takes an eighth more instructions.
#[inline(always)]
pub(crate) fn open_room<A: Allocator>(
    buf: &mut Vec<u8, A>,
    filled: usize,
    read: usize,
    own: usize,
    most: usize,
) -> Result<()>
    requires within { filled ≤ vec_len buf.old }
    requires some { 0 < most }
    ensures within { filled ≤ vec_len buf.new }
    ensures front { take filled buf.new.items ≡ take filled buf.old.items }
    ensures room { OnOk result (filled < vec_len buf.new) }
    ensures most { vec_len buf.old ≤ filled + most → vec_len buf.new ≤ filled + most }
    ensures grows { vec_capacity buf.old ≤ vec_capacity buf.new }
    ensures refused { IfErr result IsOutOfMemory }
    ensures full { OnErr result ((vec_capacity buf.old ≡ filled) × (vec_len buf.new ≡ filled)) }
{
    if filled < buf.len() {
        return Ok(());
    }
    if buf.len() == buf.capacity() {
        reserve_room(buf, LEAST_ROOM.min(most), own, read)?;
    }
    let opened = read.max(FIRST_OPENED).min(MOST_OPENED).min(most);
    let end = filled + opened.min(buf.capacity() - filled);
    // `end` is within the capacity, so this does not allocate.
    let _ = buf.resize(end, 0);
    Ok(())
}
