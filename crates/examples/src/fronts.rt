//! A `Take` of a `&mut`, and what the reader behind that has left once it has ended.
ghost use Rattle.std.specs.Prelude.{◌≡◌, ◌++◌, ℕ, List, Some, length, IfErr, IfOk};
ghost use Rattle.no_std_io2.specs.{Errors.{IsOutOfMemory}, Events.{Event, events_of}, Takes.{tells, to_come}};

use no_std_io2::io::{Read, Result};

/// Appends the next `most` bytes of a reader, or fewer at its end, and returns their number.
///
/// # Errors
/// Returns the reader's first fault among them, and `OutOfMemory` if the vector cannot grow.
pub fn read_front<R: Read>(r: &mut R, most: u64, content: &mut Vec<u8>) -> Result<usize>
    // If so many bytes are known to come, these are appended, and what follows them is to come; or an allocation failed.
    ensures back { (front : List ℕ) → (rest : List Event) → most ≡ length front
        → to_come (tells R.Read r.old) ≡ Some (events_of front ++ rest)
        → IfOk result (λ n. (n ≡ length front) × (content.new.items ≡ content.old.items ++ front)
        × (to_come (tells R.Read r.new) ≡ Some rest)) × IfErr result IsOutOfMemory }
{
    let mut front = r.take(most);
    front.read_to_end(content)
}
