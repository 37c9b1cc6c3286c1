// [`copy_through`], a copy from a reader to a writer with a buffer at each.
ghost use Rattle.std.specs.Prelude.{◌≡◌, [], Some, IfSome, IfOk, IsOk, IfErr};
ghost use Rattle.no_std_io2.specs.{Events.{HasNoFault}, Takes.{to_come, tells}, Retries.{IsFaultOf}, BufReader.{BufReaderFits}};
ghost use Rattle.no_std_io2.specs.{BufWriter.{BufWriterFits}, LineWriter.{LineWriterFits}};
ghost use Rattle.system_streams.specs.Copies.{CopiesAll, HandsAndFlushes, HandsThrough};

use no_std_io2::io::{BufReader, BufWriter, LineWriter, Read, Result, Write, copy};

// The size of each buffer, in bytes.
const ROOM: usize = 64;

// Copies all of `input` to `tower`, flushes `tower`, and returns it.
fn copy_and_flush<R: Read + Drop, T: Write + Drop>(mut input: R, mut tower: T) -> Result<(u64, T)>
    ensures all { IfOk result (λ r. CopiesAll (tells R.Read input) (T.told tower) r.0 (T.told r.1)) }
    ensures empty { IfOk result (λ r. (T.told r.1).held ≡ []) }
    ensures calls { IfOk result (λ r. HandsAndFlushes T.Write tower r.1) }
    ensures err { IfErr result (IsFaultOf (tells R.Read input) (T.told tower)) }
{
    let count = copy::<R, T, ROOM>(&mut input, &mut tower)?;
    tower.flush()?;
    Ok((count, tower))
}

/// Copies all of `input` to `output`, through a buffer of 64 bytes at each, and flushes. It returns the number
/// of bytes, or `u64::MAX` if there are more, and the output. If `line` is true, each line is sent as it ends.
/// It ignores the reader's interruptions. Follows `std::io::copy`, which takes no buffers.
///
/// If the input tells nothing, as a [`Patient`](crate::Patient), contracts know how many bytes the output
/// accepted, but not that the device gave these bytes.
///
/// # Errors
/// Returns the first fault of `input`, or the first failure of `output`; an interruption of its flush is one too. If
/// the output tells its mishaps to come, its failure is one of those. The output is then dropped, and this drop tries
/// once more to send what its buffer still holds.
///
/// ```rust
/// let (count, out) = copy_through(&b"abc\nde"[..], Vec::<u8>::new(rt.alloc()), true)?;
/// assert!(rt; count == 6);
/// assert!(rt; out.as_slice() == b"abc\nde".as_slice());
/// ```
pub fn copy_through<R: Read + Drop, W: Write + Drop>(
    input: R,
    output: W,
    line: bool,
) -> Result<(u64, W)>
    // Each buffer has to fit in memory.
    requires reader_fits { BufReaderFits R.row 64 }
    requires buffer_fits { BufWriterFits W.row 64 }
    requires lines_fit { LineWriterFits W.row 64 }
    ensures all { IfOk result (λ r. CopiesAll (tells R.Read input) (W.told output) r.0 (W.told r.1)) }
    ensures empty { IfOk result (λ r. (W.told r.1).held ≡ []) }
    // If the result is `Ok`, the output got the calls that the chosen buffer makes, and no others.
    ensures calls { IfOk result (λ r. HandsThrough W.Write line output r.1) }
    ensures err { IfErr result (IsFaultOf (tells R.Read input) (W.told output)) }
    ensures steady { IfSome (to_come (tells R.Read input)) (λ E. HasNoFault E → (W.told output).mishaps ≡ Some [] → IsOk result) }
{
    // This call was specified with a buffer at each side. The reads of `copy` are as long as this one, so they go past it,
    // and it holds no byte.
    let input = BufReader::<R, ROOM>::new(input);
    if line {
        let (count, tower) = copy_and_flush(input, LineWriter::<W, ROOM>::new(output))?;
        Ok((count, tower.into_inner()?))
    } else {
        let (count, tower) = copy_and_flush(input, BufWriter::<W, ROOM>::new(output))?;
        Ok((count, tower.into_inner()?))
    }
}
