// Comparing, printing and cloning the library's values.
ghost use Rattle.std.specs.Prelude.{◌≡◌, ◌-◌, ◌<◌, ◌↔◌, ◌⊎◌, IfOk, IsErrAnd, IsTrue, Ok};
ghost use Rattle.no_std_io2.specs.{inner.{Copy.{side_error}, Errors.{error_display}, Kinds.{kind_number}}, Errors.{IsTextError}};
ghost use Rattle.no_std_io2.specs.{Moves.{MovesFront}, Cursor.{cursor_inner, cursor_position}};
ghost use Rattle.std.specs.Hash as fed;

use no_std_io2::io::{CopyError, Cursor, Error, ErrorKind, Result, SeekFrom, Write};
use std::alloc::{AllocError, Allocator};
use std::hash::Hash;

// Kinds are ordered as they are declared, and a kind gives a hasher its place in that order, from 0. Equal kinds and
// targets are the same.
fn compares_kinds_and_targets(
    a: ErrorKind,
    b: ErrorKind,
    from: SeekFrom,
    to: SeekFrom,
) -> (bool, bool, bool)
    ensures before { IsTrue result.0 ↔ (kind_number a < kind_number b) }
    ensures kinds { IsTrue result.1 ↔ (a ≡ b) }
    ensures targets { IsTrue result.2 ↔ (from ≡ to) }
    ensures hash { ⟦<ErrorKind as Hash>⟧.hash_input a ≡ fed.u64 (kind_number a - 1) }
{
    (a < b, a == b, from == to)
}

// A clone of a kind or of a target is equal to it.
fn clones_a_kind(
    kind: &ErrorKind,
    target: &SeekFrom,
) -> std::result::Result<(ErrorKind, SeekFrom), AllocError>
    ensures { result ≡ Ok (kind.now, target.now) }
{
    Ok((kind.clone()?, target.clone()?))
}

// Two cursors are equal if their contents are equal, by the content's `==`, and their positions are.
fn compares_cursors<T: PartialEq>(a: &Cursor<T>, b: &Cursor<T>) -> bool
    ensures { IsTrue result ↔ IsTrue (T.eq (cursor_inner a.now) (cursor_inner b.now)) × (cursor_position a.now ≡ cursor_position b.now) }
{
    a == b
}

// A default cursor is at the start of a default content.
fn starts_a_default_cursor<T: Default>() -> Cursor<T>
    ensures content { T.is_default (cursor_inner result) }
    ensures position { cursor_position result ≡ 0 }
{
    Cursor::default()
}

// A clone of a cursor over a vector has the same bytes and the same position.
fn clones_a_cursor<A: Allocator + Clone>(c: &Cursor<Vec<u8, A>>) -> Result<Cursor<Vec<u8, A>>>
    ensures content { IfOk result (λ d. (cursor_inner d).items ≡ (cursor_inner c.now).items) }
    ensures position { IfOk result (λ d. cursor_position d ≡ cursor_position c.now) }
{
    c.clone()
}

// An error prints its text, or else the text of its kind.
fn prints_an_error<W: Write>(w: &mut W, error: Error) -> Result<()>
    ensures { MovesFront (W.told w.old) (error_display error) result (W.told w.new) ⊎ IsErrAnd result IsTextError }
{
    write!(w, "{error}")
}

// The error of a copy prints that of the side that failed.
fn prints_an_error_of_a_copy<W: Write>(w: &mut W, error: CopyError) -> Result<()>
    ensures { MovesFront (W.told w.old) (error_display (side_error error)) result (W.told w.new) ⊎ IsErrAnd result IsTextError }
{
    write!(w, "{error}")
}
