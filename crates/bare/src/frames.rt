//! Frames, whole or not at all.
ghost use Rattle.std.specs.Prelude.{◌≡◌, ◌+◌, ◌++◌, ◌<◌, ◌≤◌, ◌^◌, length, OnOk, OnErr, IfNone, IfSome};
ghost use Rattle.framing.specs.Frames.{frame, told_length};
ghost use Rattle.framing.specs.Sending.{writes_to, frames_held};
ghost use Rattle.bare.specs.Queue.{waiting, queue_capacity};
ghost use Rattle.bare.specs.Kept.{Appends};
ghost use Rattle.bare.specs.Frames.{Unframes, IsToDrop, Skips};

use crate::kept::append;
use crate::queue::{CAPACITY, Queue, bare_take};
use crate::{DONE, FULL, PARTIAL, REFUSED};
use framing::{FrameWriter, HEADER, told_len};
use no_std_io2::io::Result;

// The size of a buffer that is longer than each frame for which a queue has room.
const ROOM: usize = CAPACITY + 1;

// Sends a frame, and flushes.
fn send_whole(w: &mut FrameWriter<Queue, ROOM>, payload: &[u8]) -> Result<()>
    ensures ok { OnOk result (waiting (writes_to w.new)
        ≡ waiting (writes_to w.old) ++ frames_held w.old ++ frame payload.now) }
    ensures full { OnErr result (queue_capacity < length (waiting (writes_to w.old))
        + length (frames_held w.old) + length (frame payload.now)) }
{
    w.send(payload)?;
    w.flush()
}

/// Puts the frame of a payload behind the bytes that wait for the port: its length in four bytes, the lowest first, and
/// its bytes. The kept bytes go first.
///
/// Returns [`DONE`] if the port has the whole frame. Returns [`FULL`] if it does not fit; then only kept bytes were
/// sent. Returns [`REFUSED`] if the payload has more than 60 bytes; then nothing has changed.
#[unsafe(no_mangle)]
pub extern "C" fn bare_send(kept: &mut Queue, port: &mut Queue, payload: &[u8]) -> u32
    ensures { Appends (frame payload.now) kept.old port.old result kept.new port.new }
{
    let mut w = FrameWriter::<Queue, ROOM>::new(Queue::new());
    if send_whole(&mut w, payload).is_err() {
        return REFUSED;
    }
    append(w.get_ref(), kept, port)
}

// Returns the length of the payload, if it has come.
fn next_len(bytes: &[u8]) -> Option<usize>
    ensures some { IfSome result (λ n. (4 ≤ length bytes.now) × (n ≡ told_length bytes.now) × (n < 2 ^ 32)) }
    ensures none { IfNone result (length bytes.now < 4) }
{
    if bytes.len() < HEADER {
        return None;
    }
    Some(told_len(bytes))
}

/// Gives the payload of the next frame that a port received: it is moved into `room`, and `len` is then its length.
///
/// Returns [`REFUSED`] if no queue can hold the frame, since its payload has more than 60 bytes. Returns [`FULL`] if a
/// queue can, and the payload is longer than `room`. Returns [`PARTIAL`] if neither is so, or its length has not come,
/// and the frame has not come whole. Nothing has changed then.
#[unsafe(no_mangle)]
pub extern "C" fn bare_receive(port: &mut Queue, room: &mut [u8], len: &mut usize) -> u32
    ensures { Unframes (waiting port.old) room.old len.old result (waiting port.new) room.new len.new }
{
    let bytes = port.waiting();
    let Some(told) = next_len(bytes) else {
        return PARTIAL;
    };
    if told > CAPACITY - HEADER {
        return REFUSED;
    }
    if told > room.len() {
        return FULL;
    }
    if bytes.len() < HEADER + told {
        return PARTIAL;
    }
    port.advance(HEADER);
    *len = bare_take(port, &mut room[..told]);
    DONE
}

// Returns how many bytes of a frame are to be dropped, if that is known.
fn to_drop(bytes: &[u8], left: usize) -> Option<usize>
    ensures some { IfSome result (λ all. IsToDrop bytes.now left all) }
    ensures none { IfNone result ((left ≡ 0) × (length bytes.now < 4)) }
{
    if left > 0 {
        return Some(left);
    }
    match next_len(bytes) {
        Some(told) => Some(HEADER + told),
        None => None,
    }
}

/// Drops what has come of the next frame, however long it is: the way on if [`bare_receive`] returned [`REFUSED`].
/// `left` is the number of its bytes that are still to be dropped, and 0 before the first call.
///
/// Returns [`DONE`] if the whole frame is gone; `left` is 0 then. Else returns [`PARTIAL`], and the next call goes on.
#[unsafe(no_mangle)]
pub extern "C" fn bare_skip(port: &mut Queue, left: &mut usize) -> u32
    ensures { Skips (waiting port.old) left.old result (waiting port.new) left.new }
{
    let Some(all) = to_drop(port.waiting(), *left) else {
        return PARTIAL;
    };
    let gone = port.waiting().len().min(all);
    port.advance(gone);
    *left = all - gone;
    if gone < all { PARTIAL } else { DONE }
}
