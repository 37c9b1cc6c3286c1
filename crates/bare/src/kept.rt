//! Bytes that a port does not take are kept in C's memory, and go out first by the next call.
ghost use Rattle.std.specs.Prelude.{Ok, Err};
ghost use Rattle.bare.specs.Queue.{waiting};
ghost use Rattle.bare.specs.Kept.{Resumes, resume_status, AppendsOrNot};

use crate::queue::{CAPACITY, Queue, bare_put};
use crate::{DONE, FULL, KEPT};
use no_std_io2::io::{Result, Write};

// Sends the kept bytes.
fn send(kept: &mut Queue, port: &mut Queue) -> Result<()>
    ensures { Resumes (waiting kept.old) (waiting port.old) (resume_status result) (waiting kept.new) (waiting port.new) }
{
    let mut rest = kept.waiting();
    let sent = port.write_rest(&mut rest);
    let gone = kept.waiting().len() - rest.len();
    kept.advance(gone);
    sent
}

/// Sends the kept bytes, as many as the port takes.
///
/// Returns [`DONE`] if none is left, and [`KEPT`] if some are, since the port is full.
#[inline(never)]
#[unsafe(no_mangle)]
pub extern "C" fn bare_resume(kept: &mut Queue, port: &mut Queue) -> u32
    ensures { Resumes (waiting kept.old) (waiting port.old) result (waiting kept.new) (waiting port.new) }
{
    match send(kept, port) {
        Ok(()) => DONE,
        Err(_full) => KEPT,
    }
}

/// Puts all bytes of a queue behind those that wait for the port. The kept bytes go first.
///
/// Returns [`DONE`] if the port has all of them. Returns [`FULL`] if they do not fit; then only kept bytes were sent.
#[inline(never)]
pub(crate) fn append(text: &Queue, kept: &mut Queue, port: &mut Queue) -> u32
    ensures { AppendsOrNot (waiting text.now) kept.old port.old result kept.new port.new }
{
    let _ = bare_resume(kept, port);
    let bytes = text.waiting();
    if kept.waiting().len() + port.waiting().len() + bytes.len() > CAPACITY {
        return FULL;
    }
    bare_put(port, bytes);
    DONE
}
