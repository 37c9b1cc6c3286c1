// What a caller of `copy` can prove of a writer with no mishap to come, and of a copy through no buffer.
ghost use Rattle.std.specs.Prelude.{◌≡◌, ◌<◌, ◌^◌, ◌++◌, [], Some, IsOkAnd, List};
ghost use Rattle.no_std_io2.specs.{Events.{Event, event_bytes, HasNoFault}, Takes.{to_come, tells}, inner.Copy.{counted}};

use no_std_io2::io::{Read, Result, Write, copy};

// If the reader has no fault, all its bytes are copied and sent, and the writer is still steady.
fn copy_and_flush<R: Read, W: Write, const S: usize>(reader: &mut R, writer: &mut W) -> Result<u64>
    requires { S < 2 ^ 63 }
    ensures { 0 < S → (E : List Event) → to_come (tells R.Read reader.old) ≡ Some E → HasNoFault E
        → (W.told writer.old).mishaps ≡ Some []
        → IsOkAnd result (λ n. n ≡ counted (event_bytes E)) × (to_come (tells R.Read reader.new) ≡ Some [])
        × ((W.told writer.new).mishaps ≡ Some []) × ((W.told writer.new).held ≡ [])
        × ((W.told writer.new).out ≡ (W.told writer.old).out ++ (W.told writer.old).held ++ event_bytes E) }
{
    let n = copy::<R, W, S>(reader, writer)?;
    writer.flush()?;
    Ok(n)
}

// Through no buffer a copy leaves the writer as it was.
#[tactic(auto, using(no_std_io2::proofs::CopyLoop::copied_none))]
fn copies_nothing<R: Read, W: Write>(reader: &mut R, writer: &mut W) -> Result<u64>
    ensures { writer.new ≡ writer.old }
{
    copy::<R, W, 0>(reader, writer)
}
