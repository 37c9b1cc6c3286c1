// A `&[u8]` as a reader of its bytes.
ghost use Rattle.std.specs.Prelude.{◌≡◌, ◌≤◌, ◌<◌, ◌+◌, ◌++◌, length, [], Some, OnOk, OnErr, vec_len, vec_capacity};
ghost use Rattle.no_std_io2_base.specs.Events.{events_of};
ghost use Rattle.no_std_io2_base.specs.inner.InMemory.{GivesLeft, AppendsPart};
ghost use Rattle.no_std_io2_base.specs.Read.{ReadExactLaw};

use super::copying::copy_prefix;
use crate::error::{Result, failed_to_fill};
use crate::traits::{BufRead, LEAST_ROOM, Read, Stored, reserve_first, reserve_room};
use std::alloc::Allocator;

// The part of `reserve_ahead` that allocates. Apart from it, since a `read_to_end` is then inlined.
#[cold]
#[inline(never)]
fn grow_ahead<A: Allocator>(buf: &mut Vec<u8, A>, coming: usize)
    ensures items { buf.new.items ≡ buf.old.items }
    ensures len { vec_len buf.new ≡ vec_len buf.old }
    ensures grows { vec_capacity buf.old ≤ vec_capacity buf.new }
{
    let _ = reserve_first(buf, coming.saturating_add(LEAST_ROOM), coming);
}

// Makes room for the `coming` bytes and 32 more at once if the vector would otherwise grow twice. If the allocation
// fails, the vector is as it was.
pub(super) fn reserve_ahead<A: Allocator>(buf: &mut Vec<u8, A>, coming: usize)
    ensures items { buf.new.items ≡ buf.old.items }
    ensures len { vec_len buf.new ≡ vec_len buf.old }
    ensures grows { vec_capacity buf.old ≤ vec_capacity buf.new }
{
    if coming >= LEAST_ROOM && coming >= buf.capacity() - buf.len() {
        grow_ahead(buf, coming);
    }
}

// Appends the bytes in at most two parts: as many as fit, once there is room for 32, and then the rest.
#[cold]
#[inline(never)]
fn append_parts<A: Allocator>(rest: &mut &[u8], buf: &mut Vec<u8, A>) -> Result<()>
    ensures part { AppendsPart rest.old.now rest.new.now buf.old result buf.new }
    ensures done { OnOk result (rest.new.now ≡ []) }
{
    let all: &[u8] = *rest;
    let own = buf.capacity();
    reserve_first(buf, LEAST_ROOM, 0)?;
    let room = buf.capacity() - buf.len();
    let n = all.len().min(room);
    buf.extend_from_slice(&all[..n])?;
    *rest = &all[n..];
    if n < room {
        return Ok(());
    }
    reserve_room(buf, rest.len().saturating_add(LEAST_ROOM), own, n)?;
    buf.extend_from_slice(rest)?;
    *rest = &all[all.len()..];
    Ok(())
}

/// Moves bytes from the front of a slice to the end of a vector: all of them, or as many as fit if an
/// allocation fails. It first allocates for all of them and 32 more. If that fails, or if they are
/// fewer than 32, it allocates like the `read_to_end` of any reader: for 32 bytes, and once these are
/// full for the rest and 32 more.
///
/// # Errors
/// Returns `OutOfMemory` if the vector could not grow; bytes that were not appended are still in the slice.
#[inline(always)]
pub fn append_rest<A: Allocator>(rest: &mut &[u8], buf: &mut Vec<u8, A>) -> Result<()>
    ensures part { AppendsPart rest.old.now rest.new.now buf.old result buf.new }
    ensures done { OnOk result (rest.new.now ≡ []) }
{
    reserve_ahead(buf, rest.len());
    let all: &[u8] = *rest;
    let room = buf.capacity() - buf.len();
    if room < LEAST_ROOM || room <= all.len() {
        return append_parts(rest, buf);
    }
    buf.extend_from_slice(all)?;
    *rest = &all[all.len()..];
    Ok(())
}

// A slice tells no store, because it does not keep the bytes that were read from it.
impl Stored for &[u8] {}

impl Read for &[u8] {
    ghost turns = { λ s. length s.now };

    ghost events = { λ s. Some (events_of s.now) };

    ghost may = { GivesLeft (λ s. s.now) };

    ghost held = { λ s. s.now };

    #[inline(always)]
    fn read(&mut self, buf: &mut [u8]) -> Result<usize> {
        let all: &[u8] = *self;
        let n = copy_prefix(all, buf);
        *self = &all[n..];
        Ok(n)
    }

    // If there are too few bytes, it takes none, and the buffer does not change.
    fn read_exact(&mut self, buf: &mut [u8]) -> Result<()>
        ensures law { ReadExactLaw ⟦<Self as Read>⟧ self.old buf.old result buf.new self.new }

        // What was taken is now in the buffer.
        ensures ok { OnOk result (self.old.now ≡ buf.new ++ self.new.now) }
        ensures short { OnErr result ((length self.old.now < length buf.old) × (self.new ≡ self.old) × (buf.new ≡ buf.old)) }
    {
        let all: &[u8] = *self;
        if all.len() < buf.len() {
            return Err(failed_to_fill());
        }
        let n = copy_prefix(all, buf);
        *self = &all[n..];
        Ok(())
    }

    #[inline]
    fn read_to_end<A: Allocator>(&mut self, buf: &mut Vec<u8, A>) -> Result<usize> {
        let len = self.len();
        append_rest(self, buf)?;
        Ok(len)
    }
}

impl BufRead for &[u8] {
    #[tactic(auto, using(crate::proofs::ReadsLemmas::begins_whole))]
    fn fill_buf(&mut self) -> Result<&[u8]> {
        Ok(*self)
    }

    fn consume(&mut self, amount: usize) {
        let all: &[u8] = *self;
        *self = &all[amount..];
    }
}
