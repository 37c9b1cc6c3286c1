//! What was sent as a message comes back. It is the length of the payload, as a big-endian `u16`, followed by the payload.
//! Long ones have a `u32`, by which no memory is asked for.
ghost use Rattle.std.specs.{Prelude.{◌≡◌, ◌<◌, ◌^◌, ◌++◌, ◌⊎◌, ℕ, List, Some, length, IfErr, IfOk, IsErrAnd}, Int.{w32, to_be_bytes}};
ghost use Rattle.no_std_io2.specs.{Errors.{IsOutOfMemory}, Events.{Event, events_of}, Takes.{tells, IsAtEnd, to_come}, Reads.{TakesBytes}};
ghost use Rattle.examples.specs.Messages.{IsCutMessage, long_message, message};

use no_std_io2::io::{Error, ErrorKind, Read, Result, read_at_most};
use numbers::{BigEndian, ReadBytesExt};
use std::alloc::Global;

/// Reads a message, and returns its payload.
///
/// # Errors
/// Returns the error of a `read_u16` or `read_exact` that fails, and `OutOfMemory` if an allocation failed. Some first
/// bytes of the message may be taken then.
pub fn read_message<R: Read>(alloc: Global, r: &mut R) -> Result<Vec<u8>>
    ensures takes { IfOk result (λ v. TakesBytes (tells R.Read r.old) (message v.items) (tells R.Read r.new)) }

    // If a message is known to come next, its payload is returned, unless an allocation failed.
    ensures back { (payload : List ℕ) → (rest : List Event) → length payload < 2 ^ 16
        → to_come (tells R.Read r.old) ≡ Some (events_of (message payload) ++ rest)
        → IfOk result (λ v. (v.items ≡ payload) × (to_come (tells R.Read r.new) ≡ Some rest)) × IfErr result IsOutOfMemory }
{
    let len = r.read_u16::<BigEndian>()?;
    let mut payload = Vec::from_elem(alloc, 0u8, usize::from(len))?;
    r.read_exact(&mut payload)?;
    Ok(payload)
}

/// Reads a long message, whose length is a `u32`, and returns its payload. Nobody has checked this length, so the
/// memory follows the bytes that come: the payload grows by 32 at least, or by what the message still lacks.
///
/// # Errors
/// Returns the error of a `read_u32` that fails, and the reader's first fault in the payload; the reader is then right
/// after it. Returns `UnexpectedEof` if fewer bytes came than the length says; the reader is then at its end. Returns
/// `OutOfMemory` if an allocation failed. After each error the bytes of the payload that came are dropped.
pub fn read_long_message<R: Read>(alloc: Global, r: &mut R) -> Result<Vec<u8>>
    ensures takes { IfOk result (λ v. TakesBytes (tells R.Read r.old) (long_message v.items) (tells R.Read r.new)) }

    // If a long message is known to come next, its payload is returned, unless an allocation failed.
    ensures back { (payload : List ℕ) → (rest : List Event) → length payload < 2 ^ 32
        → to_come (tells R.Read r.old) ≡ Some (events_of (long_message payload) ++ rest)
        → IfOk result (λ v. (v.items ≡ payload) × (to_come (tells R.Read r.new) ≡ Some rest)) × IfErr result IsOutOfMemory }

    // If fewer bytes are known to come than the length says, the error says so, at the end; or an allocation failed.
    ensures cut { (len : ℕ) → (given : List ℕ) → len < 2 ^ 32 → length given < len
        → to_come (tells R.Read r.old) ≡ Some (events_of (to_be_bytes w32 len ++ given))
        → IsErrAnd result (λ e. (IsCutMessage e × IsAtEnd (tells R.Read r.new)) ⊎ IsOutOfMemory e) }
{
    let len = r.read_u32::<BigEndian>()?;
    let mut payload = Vec::new(alloc);
    let read = read_at_most(r, u64::from(len), &mut payload)?;
    if (read as u64) < u64::from(len) {
        return Err(Error::new(ErrorKind::UnexpectedEof, "the message ends too early"));
    }
    Ok(payload)
}
