//! A copy through buffers.
ghost use Rattle.std.specs.Prelude.{◌≡◌, ◌+◌, ◌<◌, ◌++◌, length, OnOk, OnErr};
ghost use Rattle.no_std_io2.specs.BufWriter.{writer_inner, writer_buffer};
ghost use Rattle.bare.specs.Queue.{waiting, queue_capacity};
ghost use Rattle.bare.specs.Kept.{Appends};

use crate::REFUSED;
use crate::kept::append;
use crate::queue::Queue;
use no_std_io2::io::{BufReader, BufWriter, Result, Write, copy};

// Copies a slice to a queue, and flushes the buffer in front of it.
fn copy_whole(from: &[u8], w: &mut BufWriter<Queue, 32>) -> Result<()>
    ensures ok { OnOk result (waiting (writer_inner w.new)
        ≡ waiting (writer_inner w.old) ++ writer_buffer w.old ++ from.now) }
    ensures full { OnErr result (queue_capacity < length (waiting (writer_inner w.old))
        + length (writer_buffer w.old) + length from.now) }
{
    let mut r = BufReader::<&[u8], 16>::new(from);
    copy::<_, _, 16>(&mut r, w)?;
    w.flush()
}

/// Copies these bytes behind those that wait for the port, in pieces. The kept bytes go first.
///
/// Returns [`DONE`](crate::DONE) if the port has all of them. Returns [`FULL`](crate::FULL) if they do not fit; then
/// only kept bytes were sent. Returns [`REFUSED`] if they are more than 64; then nothing has changed.
#[unsafe(no_mangle)]
pub extern "C" fn bare_copy(kept: &mut Queue, port: &mut Queue, from: &[u8]) -> u32
    ensures { Appends from.now kept.old port.old result kept.new port.new }
{
    let mut w = BufWriter::<Queue, 32>::new(Queue::new());
    if copy_whole(from, &mut w).is_err() {
        return REFUSED;
    }
    append(w.get_ref(), kept, port)
}
