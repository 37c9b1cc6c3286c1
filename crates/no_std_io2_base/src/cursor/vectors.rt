// The impls of `Write` for a cursor over a vector, owned or borrowed.
ghost use Rattle.std.specs.Prelude.{◌≡◌, ◌+◌, ◌-◌, ◌≤◌, ◌<◌, ◌++◌, Ok, IsOk, OnErr};
ghost use Rattle.std.specs.Prelude.{length, replicate, vec_len, vec_capacity, is_ok, if◌then◌else◌};
ghost use Rattle.no_std_io2_base.specs.Cursor.{cursor_position, cursor_inner, cursor_out};
ghost use Rattle.no_std_io2_base.specs.inner.Cursor.{IsPut, PutsWhole, PutsMay, PutsAll};
ghost use Rattle.no_std_io2_base.specs.Moves.{told_out};
ghost use Rattle.no_std_io2_base.specs.Writers.{WriteAllOf, WriteOf};

use super::Cursor;
use crate::error::{Error, ErrorKind, Result};
use crate::impls::{append, copy_bytes};
use crate::traits::Write;
use std::alloc::{AllocError, Allocator};

// Lengthens the vector to `end` by zeros. If the allocation fails, nothing changes.
#[cold]
#[inline(never)]
fn lengthen<A: Allocator>(
    content: &mut Vec<u8, A>,
    end: usize,
) -> std::result::Result<(), AllocError>
    requires { vec_len content.old ≤ end }
    ensures items { content.new.items
        ≡ (if is_ok result then content.old.items ++ replicate (end - vec_len content.old) 0 else content.old.items) }
    ensures full { OnErr result (vec_capacity content.old < end) }
    ensures grows { vec_capacity content.old ≤ vec_capacity content.new }
{
    content.resize(end, 0)
}

// Puts `buf` at `start`, over the bytes there and on past the end, with zeros before it if `start`
// is past the end.
#[inline(always)]
fn put<A: Allocator>(content: &mut Vec<u8, A>, start: usize, buf: &[u8]) -> Result<()>
    ensures put { IsPut content.old.items (vec_capacity content.old) start buf.now result content.new.items }
    ensures grows { vec_capacity content.old ≤ vec_capacity content.new }
{
    if start == content.len() {
        return append(content, buf);
    }
    let Some(end) = start.checked_add(buf.len()) else {
        let message = "vector position past the greatest usize";
        return Err(Error::new(ErrorKind::InvalidInput, message));
    };
    if end > content.len() {
        lengthen(content, end)?;
    }
    copy_bytes(buf, &mut content[start..end]);
    Ok(())
}

// `write` of a cursor on a vector: puts `buf` at the position, and moves the position to its end.
#[inline(always)]
fn write_at<A: Allocator>(content: &mut Vec<u8, A>, pos: &mut u64, buf: &[u8]) -> Result<usize>
    ensures puts { PutsWhole content.old.items pos.old buf.now result content.new.items pos.new }
    ensures full { OnErr result (vec_capacity content.old < pos.old + length buf.now) }
    ensures grows { vec_capacity content.old ≤ vec_capacity content.new }
{
    put(content, *pos as usize, buf)?;
    *pos += buf.len() as u64;
    Ok(buf.len())
}

// `write_all` of a cursor on a vector: an empty buffer does nothing.
#[inline(always)]
fn write_all_at<A: Allocator>(content: &mut Vec<u8, A>, pos: &mut u64, buf: &[u8]) -> Result<()>
    ensures puts { PutsAll content.old.items pos.old buf.now result content.new.items pos.new }
    ensures empty { length buf.now ≡ 0 → IsOk result × (content.new ≡ content.old) × (pos.new ≡ pos.old) }
    ensures full { OnErr result (vec_capacity content.old < pos.old + length buf.now) }
    ensures grows { vec_capacity content.old ≤ vec_capacity content.new }
{
    if buf.is_empty() {
        return Ok(());
    }
    put(content, *pos as usize, buf)?;
    *pos += buf.len() as u64;
    Ok(())
}

/// Writes over the vector from the position on, the whole buffer or nothing. If the position is
/// past the end, zeros fill the gap, also for a `write` of an empty buffer. Other bytes of the
/// vector stay. Follows `std::io::Write for Cursor<Vec<u8>>`.
///
/// # Errors
/// Returns `InvalidInput` if the buffer would end past `usize::MAX`, and else `OutOfMemory` if the
/// vector cannot grow as it needs to. Content and position are then as they were.
impl<A: Allocator> Write for Cursor<Vec<u8, A>> {
    ghost told = { λ c. told_out (cursor_out (λ v. v.items) c) };

    ghost may = { PutsMay (λ v. v.items) vec_capacity };

    #[inline(always)]
    #[tactic(auto, using(crate::proofs::CursorLemmas::puts_moves))]
    fn write(&mut self, buf: &[u8]) -> Result<usize> {
        write_at(&mut self.inner, &mut self.pos, buf)
    }

    fn flush(&mut self) -> Result<()> {
        Ok(())
    }

    #[inline(always)]
    fn write_all(&mut self, buf: &[u8]) -> Result<()>
        ensures law { WriteAllOf ⟦<Self as Write>⟧ self.old buf.now result self.new }

        // It writes the whole buffer at the position, or nothing. It writes nothing only if the
        // capacity is too small.
        ensures puts { PutsAll (cursor_inner self.old).items (cursor_position self.old) buf.now result
            (cursor_inner self.new).items (cursor_position self.new) }
        ensures empty { length buf.now ≡ 0 → IsOk result × (self.new ≡ self.old) }
        ensures full { OnErr result (vec_capacity (cursor_inner self.old)
            < cursor_position self.old + length buf.now) }
        ensures grows { vec_capacity (cursor_inner self.old) ≤ vec_capacity (cursor_inner self.new) }
    {
        write_all_at(&mut self.inner, &mut self.pos, buf)
    }
}

/// Writes over a borrowed vector, as over an owned one. Follows
/// `std::io::Write for Cursor<&mut Vec<u8>>`.
///
/// # Errors
/// Returns the errors that a cursor over an owned vector returns.
impl<A: Allocator> Write for Cursor<&mut Vec<u8, A>> {
    ghost told = { λ c. told_out (cursor_out (λ v. v.now.items) c) };

    ghost may = { PutsMay (λ v. v.now.items) (λ v. vec_capacity v.now) };

    #[inline(always)]
    #[tactic(auto, using(crate::proofs::CursorLemmas::puts_moves))]
    fn write(&mut self, buf: &[u8]) -> Result<usize>
        ensures law { WriteOf ⟦<Self as Write>⟧ self.old buf.now result self.new }
        ensures reference { (cursor_inner self.new).ghost_name ≡ (cursor_inner self.old).ghost_name }
    {
        write_at(self.inner, &mut self.pos, buf)
    }

    fn flush(&mut self) -> Result<()> {
        Ok(())
    }

    #[inline(always)]
    fn write_all(&mut self, buf: &[u8]) -> Result<()>
        ensures law { WriteAllOf ⟦<Self as Write>⟧ self.old buf.now result self.new }

        // It writes the whole buffer at the position, or nothing. It writes nothing only if the
        // capacity is too small.
        ensures puts { PutsAll (cursor_inner self.old).now.items (cursor_position self.old) buf.now result
            (cursor_inner self.new).now.items (cursor_position self.new) }
        ensures empty { length buf.now ≡ 0 → IsOk result × (self.new ≡ self.old) }
        ensures full { OnErr result (vec_capacity (cursor_inner self.old).now
            < cursor_position self.old + length buf.now) }
        ensures grows { vec_capacity (cursor_inner self.old).now ≤ vec_capacity (cursor_inner self.new).now }
        ensures reference { (cursor_inner self.new).ghost_name ≡ (cursor_inner self.old).ghost_name }
    {
        write_all_at(self.inner, &mut self.pos, buf)
    }
}
