// What readers and writers in memory do.
ghost use Rattle.std.specs.{Prelude.{List, ℕ, ◌≡◌, ◌-◌, ◌++◌, drop, length, IsOkAnd, OnOk, Some}, Box.{boxed_slice_items}};
ghost use Rattle.no_std_io2.specs.{Cursor.{cursor_inner, cursor_out, cursor_position}, Events.{Event, event_bytes}, inner.Events.{cut}};
ghost use Rattle.no_std_io2.specs.{inner.Pieces.{ArePieces, pieces_of}, Takes.{Takes, answered, gave_front, tells, to_come}};
ghost use Rattle.promises.specs.Promises.{in_cursor};

use crate::bytes::keeps_every_byte_of_a_write_all;
use no_std_io2::io::{AsSlice, BufRead, Cursor, Read, Result, Write};
use std::alloc::Allocator;
use std::boxed::BoxedSlice;
use std::collections::VecDeque;

// A chain of a reader up to a limit, a queue and a cursor gives all their bytes, in order.
fn joins_readers<R: Read + Drop, T: AsSlice<u8> + Drop, A: Allocator>(
    r: R,
    limit: u64,
    q: VecDeque<u8, A>,
    c: Cursor<T>,
    buf: &mut Vec<u8>,
) -> Result<usize>
    ensures { (E : List Event) → to_come (tells R.Read r) ≡ Some E → OnOk result (buf.new.items
        ≡ buf.old.items ++ (event_bytes (cut limit E) ++ q.items ++ drop (cursor_position c) (T.slice (cursor_inner c)))) }
{
    r.take(limit).chain(q).chain(c).read_to_end(buf)
}

// A read of a cursor takes its next bytes.
fn takes_the_front_of_a_cursor<T: AsSlice<u8>>(c: &mut Cursor<T>, buf: &mut [u8]) -> Result<usize>
    ensures { Takes (in_cursor T.slice c.old) (answered (gave_front result buf.new)) (in_cursor T.slice c.new) }
{
    c.read(buf)
}

// A `fill_buf` of a cursor lends all bytes that are left, and does not fail.
fn lends_all_of_a_cursor<T: AsSlice<u8>>(c: &mut Cursor<T>) -> Result<usize>
    ensures { IsOkAnd result (λ n. n ≡ length (T.slice (cursor_inner c.old)) - cursor_position c.old) }
{
    Ok(c.fill_buf()?.len())
}

// What is written over a cursor follows the bytes before its position, also if these are too few: zeros are
// then before it.
fn writes_over_cursors<'a, A: Allocator, const N: usize>(
    vector: &mut Cursor<Vec<u8, A>>,
    lent: &mut Cursor<&'a mut Vec<u8, A>>,
    slice: &mut Cursor<&'a mut [u8]>,
    array: &mut Cursor<[u8; N]>,
    boxed: &mut Cursor<BoxedSlice<u8, A>>,
    x: &[u8],
) -> Result<()>
    ensures { OnOk result ((cursor_out (λ v. v.items) vector.new ≡ cursor_out (λ v. v.items) vector.old ++ x.now)
        × (cursor_out (λ v. v.now.items) lent.new ≡ cursor_out (λ v. v.now.items) lent.old ++ x.now)
        × (cursor_out (λ s. s.now) slice.new ≡ cursor_out (λ s. s.now) slice.old ++ x.now)
        × (cursor_out (λ a. a) array.new ≡ cursor_out (λ a. a) array.old ++ x.now)
        × (cursor_out boxed_slice_items boxed.new ≡ cursor_out boxed_slice_items boxed.old ++ x.now)) }
{
    keeps_every_byte_of_a_write_all(vector, x)?;
    keeps_every_byte_of_a_write_all(lent, x)?;
    keeps_every_byte_of_a_write_all(slice, x)?;
    keeps_every_byte_of_a_write_all(array, x)?;
    keeps_every_byte_of_a_write_all(boxed, x)
}

// The pieces of some bytes, joined, are the bytes; none is empty; each except possibly the last ends in the delimiter,
// which is nowhere else. Exactly one list has these properties.
fn has_one_list_of_pieces()
    ensures hold { (d : ℕ) (bs : List ℕ) → ArePieces d bs (pieces_of d bs) }
    ensures determine { (d : ℕ) (bs : List ℕ) (ps : List (List ℕ)) → ArePieces d bs ps → ps ≡ pieces_of d bs }
{}
