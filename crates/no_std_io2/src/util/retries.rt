//! [`write_with_retries`] and [`flush_with_retries`], a write and a flush that are made again after a fault.
ghost use Rattle.std.specs.Prelude.{◌≡◌, [], OnOk, IsOk};
ghost use Rattle.no_std_io2_base.specs.Moves.{Sends};
ghost use Rattle.no_std_io2_base.specs.Retries.{FlushTries};
ghost use Rattle.no_std_io2_base.specs.Retries.{HasAtMost, RestFlushLaw, Tries};

use no_std_io2_base::error::Result;
use no_std_io2_base::traits::Write;

// Writes the rest and flushes, once.
fn write_and_flush<W: Write>(writer: &mut W, rest: &mut &[u8]) -> Result<()>
    ensures sends { Sends (W.told writer.old) rest.old.now result (W.told writer.new) rest.new.now }
    ensures done { OnOk result (rest.new.now ≡ []) }
    ensures flushed { OnOk result ((W.told writer.new).held ≡ []) }
    ensures calls { RestFlushLaw W.Write writer.old rest.old.now result writer.new rest.new.now }
{
    writer.write_rest(rest)?;
    writer.flush()
}

/// Writes `rest` and flushes, and tries again after each of the first `retries` faults. Accepted bytes are
/// removed from the front of `rest`, so no byte goes out twice. If the writer tells that at most `retries`
/// mishaps are to come, the call succeeds. Rust's std has no such function.
///
/// # Errors
/// Returns the fault of the last try if that try fails too. The bytes that are left in `rest` were not accepted,
/// and the same call continues with them.
///
/// ```rust
/// let mut w = BufWriter::<Vec<u8>, 64>::new(Vec::new(rt.alloc()));
/// let mut rest = b"abc".as_slice();
/// write_with_retries(&mut w, &mut rest, 3)?; // tries again after each of the first three faults
/// assert!(rt; w.get_ref().as_slice() == b"abc".as_slice());
/// ```
pub fn write_with_retries<W: Write>(writer: &mut W, rest: &mut &[u8], retries: u32) -> Result<()>
    ensures sends { Sends (W.told writer.old) rest.old.now result (W.told writer.new) rest.new.now }
    ensures done { OnOk result (rest.new.now ≡ []) }
    ensures flushed { OnOk result ((W.told writer.new).held ≡ []) }
    ensures enough { HasAtMost retries (W.told writer.old).mishaps → IsOk result }
    // Each try is a `write_rest` and, if that succeeded, a `flush`. No other call is made.
    ensures calls { Tries (RestFlushLaw W.Write) retries writer.old rest.old.now result writer.new rest.new.now }
{
    let mut left = retries;
    'tries: loop {
        match write_and_flush(writer, rest) {
            Ok(()) => return Ok(()),
            Err(fault) if left == 0 => return Err(fault),
            Err(_fault) => left -= 1,
        }
    }
}

/// Flushes, and tries again after each of the first `retries` faults. If the writer tells that at most `retries`
/// mishaps are to come, the call succeeds. Rust's std has no such function.
///
/// # Errors
/// Returns the fault of the last try if that try fails too. The bytes that were not sent are still held, and the same
/// call continues with them.
///
/// ```rust
/// let mut w = BufWriter::<Vec<u8>, 64>::new(Vec::new(rt.alloc()));
/// w.write_all(b"abc")?;
/// flush_with_retries(&mut w, 3)?; // tries again after each of the first three faults
/// assert!(rt; w.buffer().is_empty());
/// ```
pub fn flush_with_retries<W: Write>(writer: &mut W, retries: u32) -> Result<()>
    ensures { FlushTries W.Write retries writer.old result writer.new }
{
    let mut none = b"".as_slice();
    write_with_retries(writer, &mut none, retries)
}
