// What needs no memory, because a string has the room; and what is still known of a writer after a `write!`.
ghost use Rattle.std.specs.Prelude.{◌≡◌, ◌+◌, ◌≤◌, ◌++◌, [], ◌∷◌, ℕ, List, IfOk, IsOk, IsUtf8, Some, length, string_capacity, string_len};
ghost use Rattle.no_std_io2.specs.{Events.{Event, events_of}, Pieces.{newline}, Takes.{tells, to_come}, Writers.{TakesAll}};
ghost use Rattle.no_std_io2.specs.inner.{Pieces.{Lacks}, Read.{least_room}};

use no_std_io2::io::{BufRead, Read, Result, Write};
use std::alloc::Global;

// If a line is known to come, and is UTF-8, a `read_line` into a string that has room for it does not fail: no memory
// is wanted. The text that is in the string, and what follows the line, may be anything.
fn reads_a_line_into_its_room<R: BufRead>(
    r: &mut R,
    alloc: Global,
    text: &mut String,
) -> Result<usize>
    ensures { (x : List ℕ) (rest : List Event) → Lacks newline x → IsUtf8 (x ++ newline ∷ [])
        → to_come (tells R.Read r.old) ≡ Some (events_of (x ++ newline ∷ []) ++ rest)
        → string_len text.old + (length x + 1) ≤ string_capacity text.old → IsOk result }
{
    r.read_line(alloc, text)
}

// So it is for a `read_to_string`, if the string has room for all bytes to come and for 32 more.
fn reads_all_into_its_room<R: Read>(r: &mut R, alloc: Global, text: &mut String) -> Result<usize>
    ensures { (x : List ℕ) → IsUtf8 x → to_come (tells R.Read r.old) ≡ Some (events_of x)
        → string_len text.old + (length x + least_room) ≤ string_capacity text.old → IsOk result }
{
    r.read_to_string(alloc, text)
}

// A writer that takes all still does after a `write!`, so what is written then is accepted whole.
fn takes_all_after_a_text<W: Write>(w: &mut W, n: u32, x: &[u8]) -> Result<usize>
    ensures { TakesAll W.Write w.old → IfOk result (λ k. k ≡ length x.now) }
{
    write!(w, "{n}")?;
    w.write_all(x)?;
    w.write(x)
}
