//! A log of lines through a port.
ghost use Rattle.std.specs.Prelude.{Contains};
ghost use Rattle.std.specs.Bool.{OnTrue, OnFalse};
ghost use Rattle.no_std_io2.specs.inner.Pieces.{Lacks};
ghost use Rattle.no_std_io2.specs.Pieces.{newline};
ghost use Rattle.bare.specs.Queue.{waiting};
ghost use Rattle.bare.specs.Log.{LogsThrough};

use crate::kept::bare_resume;
use crate::queue::{CAPACITY, Queue, bare_put};
use crate::{FULL, REFUSED};

// Returns whether the text has a newline. It is a loop of little code; that of `contains` is six times as long.
fn has_newline(text: &[u8]) -> bool
    ensures lacks { OnFalse result (Lacks newline text.now) }
    ensures has { OnTrue result (Contains text.now newline) }
{
    let mut at = text.len();
    'bytes: while at > 0 {
        at -= 1;
        if text[at] == b'\n' {
            return true;
        }
    }
    false
}

/// Logs a line: sends the kept bytes, and then `text` and a newline. Bytes that the port does not take are kept,
/// in order.
///
/// Returns [`DONE`](crate::DONE) if the port has all of them, and [`KEPT`](crate::KEPT) if it is full and some are
/// kept. Returns [`FULL`] if it is full and the line does not fit beside the bytes that are kept, and [`REFUSED`] if
/// `text` has a newline or 64 bytes or more; nothing of the line is accepted then.
#[unsafe(no_mangle)]
pub extern "C" fn bare_log(kept: &mut Queue, port: &mut Queue, text: &[u8]) -> u32
    ensures { LogsThrough text.now (waiting kept.old) (waiting port.old) result (waiting kept.new) (waiting port.new) }
{
    if text.len() >= CAPACITY || has_newline(text) {
        return REFUSED;
    }
    let _ = bare_resume(kept, port);
    if kept.waiting().len() + text.len() >= CAPACITY {
        return FULL;
    }
    bare_put(kept, text);
    bare_put(kept, b"\n");
    bare_resume(kept, port)
}
