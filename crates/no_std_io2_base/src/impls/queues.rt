// A `VecDeque<u8>`: a reader of its front, and a writer at its back.
ghost use Rattle.std.specs.Prelude.{◌≡◌, ◌+◌, ◌-◌, ◌<◌, ◌≤◌, ◌++◌, [], length, drop, None, Some, IsOkAnd, OnErr, IfErr};
ghost use Rattle.std.specs.VecDeque.{deque_len, deque_capacity};
ghost use Rattle.no_std_io2_base.specs.Errors.{IsOutOfMemory};
ghost use Rattle.no_std_io2_base.specs.Events.{events_of};
ghost use Rattle.no_std_io2_base.specs.inner.InMemory.{GivesFront, AppendsMay, AppendsWhole};
ghost use Rattle.no_std_io2_base.specs.Moves.{told_out};
ghost use Rattle.no_std_io2_base.specs.Read.{ReadLaw};
ghost use Rattle.no_std_io2_base.specs.Writers.{WriteAllOf};

use super::copying::copy_prefix;
use super::dyn_read_to_end::{ReadObject, drain};
use super::slices::reserve_ahead;
use crate::error::Result;
use crate::traits::{Read, Stored, Write};
use core::mem::replace_with;
use std::alloc::Allocator;
use std::collections::VecDeque;

// Fewer bytes than these are pushed or popped one by one, which takes less time than a move of all.
const FEW: usize = 8;

// At least so many held bytes are moved in the time that it takes to push one.
const MOVED: usize = 16;

// Drops the first `n` bytes of the queue. If these are all, no byte has to move.
#[inline(always)]
fn drop_front<A: Allocator>(queue: &mut VecDeque<u8, A>, n: usize)
    requires { n ≤ deque_len queue.old }
    ensures items { queue.new.items ≡ drop n queue.old.items }
    ensures room { deque_capacity queue.new ≡ deque_capacity queue.old }
{
    if n == queue.len() {
        queue.clear();
        return;
    }
    turn_out(queue, n);
}

// Drops the first `n` bytes, behind which there are others. It is not inlined, because `rotate_left` of a queue takes
// much code.
#[inline(never)]
fn turn_out<A: Allocator>(queue: &mut VecDeque<u8, A>, n: usize)
    requires { n ≤ deque_len queue.old }
    ensures items { queue.new.items ≡ drop n queue.old.items }
    ensures room { deque_capacity queue.new ≡ deque_capacity queue.old }
{
    let left = queue.len() - n;
    if n < FEW && n < left {
        drop(queue.drain(..n));
    } else {
        queue.rotate_left(n);
        queue.truncate(left);
    }
}

// Appends bytes to a queue, or returns `OutOfMemory` and leaves it as it was.
fn append_back<A: Allocator>(queue: &mut VecDeque<u8, A>, bytes: &[u8]) -> Result<()>
    ensures whole { AppendsWhole queue.old.items (deque_len queue.old) (deque_capacity queue.old) bytes.now result queue.new.items }
    ensures grows { deque_capacity queue.old ≤ deque_capacity queue.new }
{
    queue.reserve(bytes.len())?;
    if bytes.len() < FEW || bytes.len() < queue.len() / MOVED {
        replace_with(queue, bytes, pushed);
    } else {
        replace_with(queue, bytes, appended);
    }
    Ok(())
}

// Moves the content to the front of the block, and appends bytes for which there is room.
fn appended<A: Allocator>(queue: VecDeque<u8, A>, bytes: &[u8]) -> (VecDeque<u8, A>, ())
    requires { deque_len queue + length bytes.now ≤ deque_capacity queue }
    ensures items { result.0.items ≡ queue.items ++ bytes.now }
    ensures grows { deque_capacity queue ≤ deque_capacity result.0 }
{
    let mut content = queue.into_vec();
    let _ = content.extend_from_slice(bytes);
    (VecDeque::from_vec(content), ())
}

// Appends bytes one by one to a queue that has room for them. The queue is passed by value, so that LLVM keeps its
// fields in registers.
fn pushed<A: Allocator>(mut queue: VecDeque<u8, A>, bytes: &[u8]) -> (VecDeque<u8, A>, ())
    requires { deque_len queue + length bytes.now ≤ deque_capacity queue }
    ensures items { result.0.items ≡ queue.items ++ bytes.now }
    ensures grows { deque_capacity queue ≤ deque_capacity result.0 }
{
    'bytes: for b in bytes {
        queue.push_back_reserved(*b);
    }
    (queue, ())
}

// A queue tells no store, because it does not keep the bytes that were read from it.
impl<A: Allocator> Stored for VecDeque<u8, A> {}

/// Reads from the front of a queue. A `read` gives bytes of the first of the two slices of the
/// queue, so it may give fewer bytes than fit. Follows `std::io::Read for VecDeque<u8>`.
impl<A: Allocator> Read for VecDeque<u8, A> {
    ghost turns = { λ q. length q.items };

    ghost events = { λ q. Some (events_of q.items) };

    ghost may = { GivesFront (λ q. q.items) };

    fn read(&mut self, buf: &mut [u8]) -> Result<usize>
        ensures law { ReadLaw ⟦<Self as Read>⟧ self.old buf.old result buf.new self.new }

        // It never fails.
        ensures rest { IsOkAnd result (λ n. self.new.items ≡ drop n self.old.items) }

        // It neither allocates nor frees memory.
        ensures room { deque_capacity self.new ≡ deque_capacity self.old }
    {
        let (front, _) = self.as_slices();
        let n = copy_prefix(front, buf);
        drop_front(self, n);
        Ok(n)
    }

    // It makes room for all bytes at once, and then reads as every reader does.
    fn read_to_end<B: Allocator>(&mut self, buf: &mut Vec<u8, B>) -> Result<usize> {
        reserve_ahead(buf, self.len());
        drain(self, buf)
    }
}

impl<A: Allocator> ReadObject for VecDeque<u8, A> {
    ghost reader = { record {
      store = λ q. None;
      turns = λ q. length q.items;
      events = λ q. Some (events_of q.items);
      may = GivesFront (λ q. q.items);
      held = λ q. [];
    } };

    fn read_object(&mut self, buf: &mut [u8]) -> Result<usize> {
        self.read(buf)
    }
}

/// Appends a whole buffer at the back, or returns `OutOfMemory` and leaves the queue as it was.
/// Follows `std::io::Write for VecDeque<u8>`.
impl<A: Allocator> Write for VecDeque<u8, A> {
    ghost told = { λ q. told_out q.items };

    ghost may = { AppendsMay (λ q. q.items) deque_len deque_capacity };

    fn write(&mut self, buf: &[u8]) -> Result<usize> {
        append_back(self, buf)?;
        Ok(buf.len())
    }

    fn write_all(&mut self, buf: &[u8]) -> Result<()>
        ensures law { WriteAllOf ⟦<Self as Write>⟧ self.old buf.now result self.new }

        // It appends the whole buffer or nothing. It fails only if the capacity was too small and
        // the allocation failed.
        ensures err { IfErr result IsOutOfMemory }
        ensures same { OnErr result (self.new.items ≡ self.old.items) }
        ensures full { OnErr result (deque_capacity self.old < deque_len self.old + length buf.now) }
        ensures grows { deque_capacity self.old ≤ deque_capacity self.new }
    {
        append_back(self, buf)
    }

    fn flush(&mut self) -> Result<()> {
        Ok(())
    }
}
