// What a `Take`, a `Chain` and `Bytes` do, over every reader.
ghost use Rattle.std.specs.Prelude.{List, [], ◌≡◌, ◌≤◌, ◌<◌, ◌++◌, Ok, OnOk, OnSome, IfErr, IfSome, string_bytes};
ghost use Rattle.no_std_io2.specs.inner.{Chain.{InTurn}, Iterators.{NextLaw, bytes_reader}, Take.{LimitTakes, limit_left}};
ghost use Rattle.no_std_io2.specs.{Errors.{IsFault, IsUnexpectedEnd}, Events.{Event, event_bytes}};

use no_std_io2::io::{BufRead, Bytes, Chain, Read, Result, Take};
use std::alloc::{Allocator, Global};

// The limit of a `Take` falls by the bytes that it gives, also before an error, and its reader loses these and no
// others. At limit 0 it gives nothing, and makes no call.
fn keeps_to_its_limit<R: Read>(t: &mut Take<R>, buf: &mut [u8]) -> Result<()>
    ensures takes { (P : List Event) × OnOk result (event_bytes P ≡ buf.new) × LimitTakes R.Read t.old P t.new }
    ensures at_limit { limit_left t.old ≡ 0 → OnOk result (buf.new ≡ []) × IfErr result IsUnexpectedEnd }
{
    t.read_exact(buf)
}

// So it is for a `read_to_end`,
fn drains_to_its_limit<R: Read, A: Allocator>(
    t: &mut Take<R>,
    buf: &mut Vec<u8, A>,
) -> Result<usize>
    ensures takes { (P : List Event) × (buf.new.items ≡ buf.old.items ++ event_bytes P) × LimitTakes R.Read t.old P t.new }
    ensures at_limit { limit_left t.old ≡ 0 → result ≡ Ok 0 }
{
    t.read_to_end(buf)
}

// a piece,
fn keeps_to_its_limit_in_a_piece<R: BufRead, A: Allocator>(
    t: &mut Take<R>,
    delim: u8,
    buf: &mut Vec<u8, A>,
) -> Result<usize>
    ensures takes { (P : List Event) × (buf.new.items ≡ buf.old.items ++ event_bytes P) × LimitTakes ⟦<R as Read>⟧ t.old P t.new }
    ensures at_limit { limit_left t.old ≡ 0 → result ≡ Ok 0 }
{
    t.read_until(delim, buf)
}

// and a line.
fn keeps_to_its_limit_in_a_line<R: BufRead>(
    t: &mut Take<R>,
    alloc: Global,
    text: &mut String,
) -> Result<usize>
    ensures takes { (P : List Event) × OnOk result (string_bytes text.new ≡ string_bytes text.old ++ event_bytes P)
        × LimitTakes ⟦<R as Read>⟧ t.old P t.new }
    ensures at_limit { limit_left t.old ≡ 0 → (result ≡ Ok 0) × (string_bytes text.new ≡ string_bytes text.old) }
{
    t.read_line(alloc, text)
}

// A `Chain` uses one reader after the other: the second only once the first is at its end, and the first never again.
fn reads_in_turn<T: Read, U: Read>(c: &mut Chain<T, U>, buf: &mut [u8]) -> Result<()>
    ensures { InTurn c.old c.new }
{
    c.read_exact(buf)
}

// So it is for a `read_to_end`,
fn drains_in_turn<T: Read, U: Read, A: Allocator>(
    c: &mut Chain<T, U>,
    buf: &mut Vec<u8, A>,
) -> Result<usize>
    ensures { InTurn c.old c.new }
{
    c.read_to_end(buf)
}

// and a piece.
fn takes_a_piece_in_turn<T: BufRead, U: BufRead, A: Allocator>(
    c: &mut Chain<T, U>,
    delim: u8,
    buf: &mut Vec<u8, A>,
) -> Result<usize>
    ensures { InTurn c.old c.new }
{
    c.read_until(delim, buf)
}

// `Bytes` yields the next byte or fault, and spends a turn for it.
fn yields_the_next_byte<R: Read + Drop>(bytes: &mut Bytes<R>) -> Option<Result<u8>>
    ensures law { NextLaw R.Read (bytes_reader bytes.old) result (bytes_reader bytes.new) }
    ensures fault { IfSome result (λ item. IfErr item IsFault) }
    ensures turns { R.turns (bytes_reader bytes.new) ≤ R.turns (bytes_reader bytes.old) }
    ensures turn { OnSome result (R.turns (bytes_reader bytes.new) < R.turns (bytes_reader bytes.old)) }
{
    bytes.next()
}
