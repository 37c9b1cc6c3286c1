//! Commands, each with its end behind it: bytes up to a delimiter. [`read_whole`] reads a store.
ghost use Rattle.std.specs.Prelude.{◌≡◌, ◌++◌, ◌∷◌, [], ℕ, List, Some, IfErr, IfOk, IfSome, IsSomeAnd};
ghost use Rattle.no_std_io2.specs.{Errors.{IsOutOfMemory}, Events.{Event, events_of}, Reads.{TakesBytes}, Takes.{tells, to_come}};
ghost use Rattle.no_std_io2.specs.inner.Pieces.{Lacks};

use no_std_io2::io::{BufRead, Read, Result, Seek, SeekFrom};
use std::alloc::Global;

/// Reads a command, and returns it with the byte `end` behind it. At the end of the reader that byte may be missing.
///
/// # Errors
/// Returns the reader's first fault, and `OutOfMemory` if an allocation failed. Some first bytes of the command may be
/// taken then.
pub fn read_command<B: BufRead>(alloc: Global, r: &mut B, end: u8) -> Result<Vec<u8>>
    ensures takes { IfOk result (λ v. TakesBytes (tells B.Read r.old) v.items (tells B.Read r.new)) }

    // If a command is known to come next, it is returned, unless an allocation failed.
    ensures back { (command : List ℕ) → (rest : List Event) → Lacks end command
        → to_come (tells B.Read r.old) ≡ Some (events_of (command ++ end ∷ []) ++ rest)
        → IfOk result (λ v. (v.items ≡ command ++ end ∷ []) × (to_come (tells B.Read r.new) ≡ Some rest))
        × IfErr result IsOutOfMemory }
{
    let mut command = Vec::new(alloc);
    r.read_until(end, &mut command)?;
    Ok(command)
}

/// Reads the whole of a store, such as a file, and goes back to its start.
///
/// # Errors
/// Returns the error of a `seek` or of the `read_to_end`. The position may have moved then.
pub fn read_whole<F: Read + Seek>(alloc: Global, f: &mut F) -> Result<Vec<u8>>
    ensures whole { IfOk result (λ v. IfSome (F.store f.old) (λ s. (v.items ≡ s.content)
        × IsSomeAnd (F.store f.new) (λ t. (t.content ≡ s.content) × (t.position ≡ 0)))) }
{
    f.seek(SeekFrom::Start(0))?;
    let mut content = Vec::new(alloc);
    f.read_to_end(&mut content)?;
    f.seek(SeekFrom::Start(0))?;
    Ok(content)
}
