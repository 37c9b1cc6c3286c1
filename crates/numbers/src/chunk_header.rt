//! Callers: headers of chunks, the kind in two bytes and the length in four, big-endian. What was written is read back. And
//! steps, which have a sign.
ghost use Rattle.byteorder.specs.Endian.{big_bytes, big_number};
ghost use Rattle.std.specs.{Int.{cast_unsigned, w16}, Prelude.{◌≡◌, ◌<◌, ◌^◌, ◌++◌, ◌∷◌, ℕ, List, IfOk, Ok, Some}};
ghost use Rattle.numbers.specs.ChunkHeaders.{chunk_header, ReadsChunkHeader, ReadsTwo, WritesChunkHeader};
ghost use Rattle.numbers.specs.Numbers.{first_byte, signed_by};
ghost use Rattle.no_std_io2.specs.{Events.{Event, events_of}, Moves.{MovesFront}, Reads.{TakesBytes}, Takes.{tells, to_come}};

use crate::{BigEndian, ReadBytesExt, WriteBytesExt};
use no_std_io2::io::{Read, Result, Write};

/// Writes the header of a chunk.
///
/// # Errors
/// Returns the error of a `write_all` that fails. Some front of the header was then accepted.
pub fn write_chunk_header<W: Write>(w: &mut W, kind: u16, len: u32) -> Result<()>
    ensures moves { MovesFront (W.told w.old) (chunk_header kind len) result (W.told w.new) }
    ensures writes { WritesChunkHeader W.Write kind len w.old result w.new }
{
    w.write_u16::<BigEndian>(kind)?;
    w.write_u32::<BigEndian>(len)
}

/// Reads the header of a chunk, and returns its kind and its length.
///
/// # Errors
/// Returns the error of a `read_exact` that fails. Some first bytes of the header may be taken then.
pub fn read_chunk_header<R: Read>(r: &mut R) -> Result<(u16, u32)>
    ensures reads { ReadsChunkHeader R.Read r.old result r.new }
    ensures takes { IfOk result (λ h. TakesBytes (tells R.Read r.old) (chunk_header h.0 h.1) (tells R.Read r.new)) }
    ensures back { (kind len : ℕ) (rest : List Event) → kind < 256 ^ 2 → len < 256 ^ 4
        → to_come (tells R.Read r.old) ≡ Some (events_of (chunk_header kind len) ++ rest)
        → (result ≡ Ok (kind, len)) × (to_come (tells R.Read r.new) ≡ Some rest) }
{
    let kind = r.read_u16::<BigEndian>()?;
    let len = r.read_u32::<BigEndian>()?;
    Ok((kind, len))
}

/// Reads a step: its axis in one byte, and its length with a sign in two, big-endian.
///
/// # Errors
/// Returns the error of a `read_exact` that fails. The axis may be taken then.
pub fn read_step<R: Read>(r: &mut R) -> Result<(u8, i16)>
    ensures reads { ReadsTwo R.Read first_byte 1 (signed_by w16 big_number 2) 2 r.old result r.new }
    ensures takes { IfOk result (λ s. TakesBytes (tells R.Read r.old) (s.0 ∷ big_bytes 2 (cast_unsigned w16 s.1)) (tells R.Read r.new)) }
{
    let axis = r.read_u8()?;
    let length = r.read_i16::<BigEndian>()?;
    Ok((axis, length))
}
