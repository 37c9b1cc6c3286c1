// The impls of `Write` for a cursor over a slice, an array or a boxed slice.
ghost use Rattle.std.specs.Prelude.{◌≡◌, ◌+◌, ◌-◌, min, Ok};
ghost use Rattle.std.specs.Prelude.{length};
ghost use Rattle.std.specs.Box.{boxed_slice_items};
ghost use Rattle.no_std_io2_base.specs.Cursor.{cursor_position, cursor_inner, cursor_out};
ghost use Rattle.no_std_io2_base.specs.inner.Cursor.{PutsFitting, PutsAllFitting, FitsMay};
ghost use Rattle.no_std_io2_base.specs.Moves.{told_out};
ghost use Rattle.no_std_io2_base.specs.Writers.{WriteAllOf, WriteOf};

use super::Cursor;
use crate::error::{Result, failed_to_write};
use crate::impls::{copy_bytes, copy_prefix};
use crate::traits::Write;
use std::alloc::Allocator;
use std::boxed::BoxedSlice;

// Writes as many bytes as fit into the slice at the position, and moves the position to their end.
fn write_fitting(content: &mut [u8], pos: &mut u64, buf: &[u8]) -> usize
    ensures count { result ≡ min (length buf.now) (length content.old - pos.old) }
    ensures puts { PutsFitting content.old pos.old buf.now content.new pos.new }
{
    let start = (content.len() as u64).min(*pos) as usize;
    let n = copy_prefix(buf, &mut content[start..]);
    *pos += n as u64;
    n
}

// `write_all` of a cursor over a slice. It and the calls of it are always inlined: a piece's length is often a
// constant, and the copy of it is then a few moves.
#[inline(always)]
fn write_all_fitting(content: &mut [u8], pos: &mut u64, buf: &[u8]) -> Result<()>
    ensures { PutsAllFitting content.old pos.old buf.now result content.new pos.new }
{
    let start = (content.len() as u64).min(*pos) as usize;
    if buf.len() <= content.len() - start {
        // The length of the copy is that of the piece, which the caller may know.
        copy_bytes(buf, &mut content[start..start + buf.len()]);
        *pos += buf.len() as u64;
        return Ok(());
    }
    write_fitting(content, pos, buf);
    Err(failed_to_write())
}

/// Writes over the slice from the position on. The slice keeps its length: a `write` takes as many
/// first bytes of the buffer as fit before its end, and none if the position is past the end. Other
/// bytes of the slice stay. Follows `std::io::Write for Cursor<&mut [u8]>`.
///
/// # Errors
/// `write_all` returns `WriteZero` if the buffer does not fit; the first bytes, as many as fit,
/// were then written. `write` and `flush` return no error.
impl Write for Cursor<&mut [u8]> {
    ghost told = { λ c. told_out (cursor_out (λ s. s.now) c) };

    ghost may = { FitsMay (λ s. s.now) };

    fn write(&mut self, buf: &[u8]) -> Result<usize>
        ensures law { WriteOf ⟦<Self as Write>⟧ self.old buf.now result self.new }
        ensures reference { (cursor_inner self.new).ghost_name ≡ (cursor_inner self.old).ghost_name }
    {
        Ok(write_fitting(self.inner, &mut self.pos, buf))
    }

    fn flush(&mut self) -> Result<()> {
        Ok(())
    }

    #[inline(always)]
    fn write_all(&mut self, buf: &[u8]) -> Result<()>
        ensures law { WriteAllOf ⟦<Self as Write>⟧ self.old buf.now result self.new }

        // It writes as many bytes as fit, at the position.
        // It fails if and only if these are not all.
        ensures puts { PutsAllFitting (cursor_inner self.old).now (cursor_position self.old) buf.now result
            (cursor_inner self.new).now (cursor_position self.new) }
        ensures reference { (cursor_inner self.new).ghost_name ≡ (cursor_inner self.old).ghost_name }
    {
        write_all_fitting(self.inner, &mut self.pos, buf)
    }
}

/// Writes over the array, as over a slice of it. Follows `std::io::Write for Cursor<[u8; N]>`.
///
/// # Errors
/// Returns the errors that a cursor over a slice returns.
impl<const N: usize> Write for Cursor<[u8; N]> {
    ghost told = { λ c. told_out (cursor_out (λ a. a) c) };

    ghost may = { FitsMay (λ a. a) };

    fn write(&mut self, buf: &[u8]) -> Result<usize> {
        Ok(write_fitting(&mut self.inner, &mut self.pos, buf))
    }

    fn flush(&mut self) -> Result<()> {
        Ok(())
    }

    #[inline(always)]
    fn write_all(&mut self, buf: &[u8]) -> Result<()>
        ensures law { WriteAllOf ⟦<Self as Write>⟧ self.old buf.now result self.new }

        // It writes as many bytes as fit, at the position.
        // It fails if and only if these are not all.
        ensures puts { PutsAllFitting (cursor_inner self.old) (cursor_position self.old) buf.now result
            (cursor_inner self.new) (cursor_position self.new) }
    {
        write_all_fitting(&mut self.inner, &mut self.pos, buf)
    }
}

/// Writes over the boxed slice, as over a lent one. Follows `std::io::Write for Cursor<Box<[u8]>>`.
///
/// # Errors
/// Returns the errors that a cursor over a slice returns.
impl<A: Allocator> Write for Cursor<BoxedSlice<u8, A>> {
    ghost told = { λ c. told_out (cursor_out boxed_slice_items c) };

    ghost may = { FitsMay boxed_slice_items };

    fn write(&mut self, buf: &[u8]) -> Result<usize> {
        Ok(write_fitting(self.inner.as_mut_slice(), &mut self.pos, buf))
    }

    fn flush(&mut self) -> Result<()> {
        Ok(())
    }

    #[inline(always)]
    fn write_all(&mut self, buf: &[u8]) -> Result<()>
        ensures law { WriteAllOf ⟦<Self as Write>⟧ self.old buf.now result self.new }

        // It writes as many bytes as fit, at the position.
        // It fails if and only if these are not all.
        ensures puts { PutsAllFitting (boxed_slice_items (cursor_inner self.old)) (cursor_position self.old) buf.now result
            (boxed_slice_items (cursor_inner self.new)) (cursor_position self.new) }
    {
        write_all_fitting(self.inner.as_mut_slice(), &mut self.pos, buf)
    }
}
