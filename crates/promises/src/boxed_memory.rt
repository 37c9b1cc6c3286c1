// What a call of a stream in memory does is known in a box too, in which only its ghost member `may` says it.
ghost use Rattle.std.specs.Prelude.{◌≡◌, ◌-◌, ◌<◌, ◌+◌, ◌++◌, IsOkAnd, Ok, OnErr, drop, length, min, take, vec_capacity, vec_len};
ghost use Rattle.std.specs.{Box.{boxed_slice_items}, VecDeque.{deque_capacity, deque_len}};
ghost use Rattle.no_std_io2.specs.inner.{InMemory.{AppendsWhole}, Cursor.{PutsFitting, PutsWhole, cursor_left}};
ghost use Rattle.no_std_io2.specs.{Cursor.{cursor_inner, cursor_position}, Takes.{gave_front}};

use no_std_io2::io::{AsSlice, Cursor, Read, Result, Write};
use std::alloc::Allocator;
use std::boxed::BoxedSlice;
use std::collections::VecDeque;

// A cursor over a vector puts the whole buffer at its position, or nothing.
fn puts_all_over_a_vector<A: Allocator>(c: &mut Box<Cursor<Vec<u8, A>>>, x: &[u8]) -> Result<usize>
    ensures puts { PutsWhole (cursor_inner c.old.value).items (cursor_position c.old.value) x.now result
        (cursor_inner c.new.value).items (cursor_position c.new.value) }
    ensures full { OnErr result (vec_capacity (cursor_inner c.old.value) < cursor_position c.old.value + length x.now) }
{
    c.write(x)
}

fn puts_all_over_a_lent_vector<'a, A: Allocator>(
    c: &mut Box<Cursor<&'a mut Vec<u8, A>>>,
    x: &[u8],
) -> Result<usize>
    ensures puts { PutsWhole (cursor_inner c.old.value).now.items (cursor_position c.old.value) x.now result
        (cursor_inner c.new.value).now.items (cursor_position c.new.value) }
    ensures full { OnErr result (vec_capacity (cursor_inner c.old.value).now < cursor_position c.old.value + length x.now) }
{
    c.write(x)
}

// One over a slice, an array or a boxed slice puts as much as fits, and does not fail.
fn puts_what_fits_over_a_slice<'a>(c: &mut Box<Cursor<&'a mut [u8]>>, x: &[u8]) -> Result<usize>
    ensures { IsOkAnd result (λ n. n ≡ min (length x.now) (length (cursor_inner c.old.value).now - cursor_position c.old.value))
        × PutsFitting (cursor_inner c.old.value).now (cursor_position c.old.value) x.now
        (cursor_inner c.new.value).now (cursor_position c.new.value) }
{
    c.write(x)
}

fn puts_what_fits_over_an_array<const N: usize>(
    c: &mut Box<Cursor<[u8; N]>>,
    x: &[u8],
) -> Result<usize>
    ensures { IsOkAnd result (λ n. n ≡ min (length x.now) (length (cursor_inner c.old.value) - cursor_position c.old.value))
        × PutsFitting (cursor_inner c.old.value) (cursor_position c.old.value) x.now
        (cursor_inner c.new.value) (cursor_position c.new.value) }
{
    c.write(x)
}

fn puts_what_fits_over_a_boxed_slice<A: Allocator>(
    c: &mut Box<Cursor<BoxedSlice<u8, A>>>,
    x: &[u8],
) -> Result<usize>
    ensures { IsOkAnd result (λ n. n ≡ min (length x.now)
        (length (boxed_slice_items (cursor_inner c.old.value)) - cursor_position c.old.value))
        × PutsFitting (boxed_slice_items (cursor_inner c.old.value)) (cursor_position c.old.value) x.now
        (boxed_slice_items (cursor_inner c.new.value)) (cursor_position c.new.value) }
{
    c.write(x)
}

// A vector and a queue append the whole buffer, or nothing if an allocation failed for which they had no room.
fn appends_all_to_a_vector<A: Allocator>(v: &mut Box<Vec<u8, A>>, x: &[u8]) -> Result<usize>
    ensures { AppendsWhole v.old.value.items (vec_len v.old.value) (vec_capacity v.old.value) x.now result v.new.value.items }
{
    v.write(x)
}

fn appends_all_to_a_queue<A: Allocator>(q: &mut Box<VecDeque<u8, A>>, x: &[u8]) -> Result<usize>
    ensures { AppendsWhole q.old.value.items (deque_len q.old.value) (deque_capacity q.old.value) x.now result q.new.value.items }
{
    q.write(x)
}

// A queue gives its first bytes, and a slice and a cursor as many as fit; none of them fails.
fn gives_the_front_of_a_queue<A: Allocator>(
    q: &mut Box<VecDeque<u8, A>>,
    buf: &mut [u8],
) -> Result<usize>
    ensures { IsOkAnd (gave_front result buf.new) (λ x. q.old.value.items ≡ x ++ q.new.value.items) }
{
    q.read(buf)
}

fn gives_what_fits_of_a_slice<'a>(s: &mut Box<&'a [u8]>, buf: &mut [u8]) -> Result<usize>
    ensures { (gave_front result buf.new ≡ Ok (take (length buf.new) s.old.value.now))
        × (s.new.value.now ≡ drop (length buf.new) s.old.value.now) }
{
    s.read(buf)
}

fn gives_what_fits_of_a_cursor<T: AsSlice<u8>>(
    c: &mut Box<Cursor<T>>,
    buf: &mut [u8],
) -> Result<usize>
    ensures { (gave_front result buf.new ≡ Ok (take (length buf.new) (cursor_left T.slice c.old.value)))
        × (cursor_left T.slice c.new.value ≡ drop (length buf.new) (cursor_left T.slice c.old.value)) }
{
    c.read(buf)
}
