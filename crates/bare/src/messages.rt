//! Messages with their length in front, cut from the bytes that a port received.
ghost use Rattle.bare.specs.Queue.{waiting};
ghost use Rattle.bare.specs.Messages.{Receives};

use crate::queue::{CAPACITY, Queue, bare_take};
use crate::{DONE, FULL, PARTIAL, REFUSED};
use no_std_io2::io::Read;

/// Gives the next message of a port: a byte with its length, and so many bytes, which are moved into `room`. `len` is
/// then their number.
///
/// Returns [`REFUSED`] if no queue can hold the message, and [`FULL`] if a queue can and it is longer than `room`, with
/// its length in `len`. Returns [`PARTIAL`] if neither is so and it has not come whole, or if its length has not come. All
/// its bytes still wait then, and `room` is as it was.
#[unsafe(no_mangle)]
pub extern "C" fn bare_message(port: &mut Queue, room: &mut [u8], len: &mut usize) -> u32
    ensures { Receives (waiting port.old) room.old len.old result (waiting port.new) room.new len.new }
{
    let mut rest = port.waiting();
    let mut head = [0u8; 1];
    if rest.read_exact(&mut head).is_err() {
        return PARTIAL;
    }
    let n = usize::from(head[0]);
    if n >= CAPACITY {
        return REFUSED;
    }
    if n > room.len() {
        *len = n;
        return FULL;
    }
    if rest.len() < n {
        return PARTIAL;
    }
    port.advance(1);
    *len = bare_take(port, &mut room[..n]);
    DONE
}
