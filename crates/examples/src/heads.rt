//! [`head`], a loop over lines, also before a fault: the first lines of a reader go to a writer.
ghost use Rattle.std.specs.Prelude.{◌⊎◌, IfOk, IfErr};
ghost use Rattle.no_std_io2.specs.Takes.{tells};
ghost use Rattle.examples.specs.Lines.{PassesLines, StopsAtPart, StopsWriting};

use no_std_io2::io::{BufRead, Result, Write};
use std::alloc::Global;

/// Writes the first `wanted` lines of a reader to a writer, and returns their number. It is lower only at the end of
/// the reader. A line ends in a newline, except the last if the reader has none there. The lines after them can still
/// be read.
///
/// # Errors
/// Returns the reader's first fault, and `OutOfMemory` if an allocation failed; the writer has then accepted every byte
/// that was taken, also those of a part of a line. Returns the writer's fault, and `WriteZero` if the writer takes no
/// byte; the writer has then accepted the lines before and some first bytes of one more, whose other bytes are lost. If
/// the writer fails at the part of a line before the reader's fault, that fault is lost too.
pub fn head<B: BufRead, W: Write>(alloc: Global, r: &mut B, w: &mut W, wanted: u64) -> Result<u64>
    ensures passes { IfOk result (PassesLines wanted (tells B.Read r.old) (tells B.Read r.new)
        (W.told w.old) (W.told w.new)) }
    ensures stops { IfErr result (λ e. StopsAtPart e (tells B.Read r.old) (tells B.Read r.new) (W.told w.old) (W.told w.new)
        ⊎ StopsWriting e (tells B.Read r.old) (tells B.Read r.new) (W.told w.old) (W.told w.new)) }
{
    let mut line = Vec::<u8>::new(alloc);
    let mut count = 0;
    'lines: while count < wanted {
        line.clear();
        match r.read_until(b'\n', &mut line) {
            Ok(0) => return Ok(count),
            Ok(_) => w.write_all(&line)?,
            Err(e) => {
                w.write_all(&line)?; // the part of a line before the fault
                return Err(e);
            }
        }
        count += 1;
    }
    Ok(count)
}
