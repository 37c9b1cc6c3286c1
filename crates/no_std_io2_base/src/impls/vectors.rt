// A `Vec<u8>` as a writer at its end.
ghost use Rattle.std.specs.Prelude.{◌≡◌, ◌+◌, ◌++◌, ◌≤◌, ◌<◌, Ok, IsOk, OnOk, OnErr};
ghost use Rattle.std.specs.Prelude.{IfErr, length, vec_len, vec_capacity};
ghost use Rattle.no_std_io2_base.specs.declared.impls.vectors.TheConstants.{IN_PLACE};
ghost use Rattle.no_std_io2_base.specs.Errors.{IsOutOfMemory};
ghost use Rattle.no_std_io2_base.specs.inner.InMemory.{AppendsMay};
ghost use Rattle.no_std_io2_base.specs.Moves.{told_out};
ghost use Rattle.no_std_io2_base.specs.Writers.{WriteAllOf};

use super::copying::copy_bytes;
use crate::error::Result;
use crate::traits::Write;
use std::alloc::Allocator;

// The longest piece that is appended without a call.
const IN_PLACE: usize = 32;

// Appends a short piece for which there is room, over zeros. This takes no call, and no test for overlap.
#[inline(always)]
fn append_in_place<A: Allocator>(buf: &mut Vec<u8, A>, bytes: &[u8])
    requires short { length bytes.now ≤ IN_PLACE }
    requires room { vec_len buf.old + IN_PLACE ≤ vec_capacity buf.old }
    ensures items { buf.new.items ≡ buf.old.items ++ bytes.now }
    ensures len { vec_len buf.new ≡ vec_len buf.old + length bytes.now }
    ensures grows { vec_capacity buf.old ≤ vec_capacity buf.new }
{
    let start = buf.len();
    let end = start + bytes.len();
    // They are within the capacity, so this does not allocate.
    let _ = buf.extend_from_slice(&[0; IN_PLACE]);
    copy_bytes(bytes, &mut buf[start..end]);
    buf.truncate(end);
}

// Appends these bytes to a vector, or returns `OutOfMemory` if it could not grow; it is then as it was.
#[inline(always)]
pub(crate) fn append<A: Allocator>(buf: &mut Vec<u8, A>, bytes: &[u8]) -> Result<()>
    ensures ok { OnOk result (buf.new.items ≡ buf.old.items ++ bytes.now) }
    ensures err { OnErr result (buf.new.items ≡ buf.old.items) }
    ensures len { OnOk result (vec_len buf.new ≡ vec_len buf.old + length bytes.now) }
    ensures refused { IfErr result IsOutOfMemory }
    ensures full { OnErr result (vec_capacity buf.old < vec_len buf.old + length bytes.now) }
    ensures grows { vec_capacity buf.old ≤ vec_capacity buf.new }
{
    // A caller that writes byte by byte appends one.
    if bytes.len() == 1 {
        buf.reserve(1)?;
        buf.push_reserved(bytes[0]);
        return Ok(());
    }
    if bytes.len() <= IN_PLACE && buf.capacity() - buf.len() >= IN_PLACE {
        append_in_place(buf, bytes);
        return Ok(());
    }
    buf.extend_from_slice(bytes)?;
    Ok(())
}

/// Appends a whole buffer, or returns `OutOfMemory` and leaves the vector as it was. Nothing is
/// held. Follows `std::io::Write for Vec<u8>`.
impl<A: Allocator> Write for Vec<u8, A> {
    ghost told = { λ v. told_out v.items };

    ghost may = { AppendsMay (λ v. v.items) vec_len vec_capacity };

    #[inline(always)]
    fn write(&mut self, buf: &[u8]) -> Result<usize> {
        append(self, buf)?;
        Ok(buf.len())
    }

    #[inline(always)]
    fn write_all(&mut self, buf: &[u8]) -> Result<()>
        ensures law { WriteAllOf ⟦<Self as Write>⟧ self.old buf.now result self.new }

        // It appends the whole buffer or nothing. It fails only if the capacity was too small and
        // the allocation failed.
        ensures err { IfErr result IsOutOfMemory }
        ensures same { OnErr result (self.new.items ≡ self.old.items) }
        ensures empty { length buf.now ≡ 0 → IsOk result }
        ensures full { OnErr result (vec_capacity self.old < vec_len self.old + length buf.now) }
        ensures grows { vec_capacity self.old ≤ vec_capacity self.new }
    {
        append(self, buf)
    }

    fn flush(&mut self) -> Result<()> {
        Ok(())
    }
}
