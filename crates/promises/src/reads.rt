// What readers give, and where seeks go.
ghost use Rattle.std.specs.Prelude.{◌≡◌, ◌+◌, ◌<◌, [], ◌++◌, ℕ, List, Ok, Some, IfSome, IsOk, drop, length, vec_len, vec_capacity};
ghost use Rattle.std.specs.Prelude.{string_bytes};
ghost use Rattle.no_std_io2.specs.BufReader.{reader_inner, reader_behind, reader_held, reader_store, KeepsBuffer};
ghost use Rattle.no_std_io2.specs.inner.{BufReader.{TakesHeld, TakesHeldLine, ReaderIsSound}, BufferSeeks.{TakesOver}};
ghost use Rattle.no_std_io2.specs.inner.{Buffer.{IsInBuffer, IsSuffix}, Events.{BeginsWith}, Pieces.{EndsPiece, PieceEnds}};
ghost use Rattle.no_std_io2.specs.Takes.{tells, answered, gave_front, IsAtEnd, KeepsContent, Takes, to_come};
ghost use Rattle.no_std_io2.specs.{Events.{Event, event_bytes, Store}, Pieces.{newline}, Seek.{Seeks}};
ghost use Rattle.io_bench.specs.Tally.{tally_inner};
ghost use Rattle.promises.specs.Promises.{in_chain, in_reader, in_take};

use io_bench::Tally;
use no_std_io2::io::{BufRead, BufReader, Chain, Read, Result, Seek, SeekFrom, Take};
use std::alloc::{Allocator, Global};

/// If it is known what a reader is going to give, a `read` gives what comes next, bytes or an error, and nothing else
/// is gone. It gives no byte only at the end, or into an empty buffer.
pub fn gives_what_comes_next<R: Read>(r: &mut R, buf: &mut [u8]) -> Result<usize>
    ensures { (E : List Event) → to_come (tells R.Read r.old) ≡ Some E
        → (after : List Event) × (to_come (tells R.Read r.new) ≡ Some after) × (E ≡ answered (gave_front result buf.new) ++ after)
        × (result ≡ Ok 0 → 0 < length buf.new → E ≡ []) }
{
    r.read(buf)
}

/// In a tower the held bytes come first, then the events of the first reader up to the limit, and then those of the
/// second. A `read` takes what comes next, bytes or an error, and nothing else. It gives no byte only at the end, or
/// into an empty buffer.
pub fn gives_what_comes_next_in_a_tower<R: Read, U: Read, const S: usize>(
    tower: &mut Box<BufReader<Chain<Take<Tally<R>>, U>, S>>,
    buf: &mut [u8],
) -> Result<usize>
    ensures next { Takes (in_reader (in_chain (in_take (λ t. tells R.Read (tally_inner t))) (tells U.Read)) tower.old.value)
        (answered (gave_front result buf.new))
        (in_reader (in_chain (in_take (λ t. tells R.Read (tally_inner t))) (tells U.Read)) tower.new.value) }
    ensures end { result ≡ Ok 0 → 0 < length buf.new
        → IsAtEnd (in_reader (in_chain (in_take (λ t. tells R.Read (tally_inner t))) (tells U.Read)) tower.new.value) }
{
    tower.read(buf)
}

/// `read_until` appends one piece: the bytes up to and including the next delimiter, or all if there is none. After an
/// error it has appended what it took, and the delimiter is not among these bytes.
pub fn gives_the_next_piece<R: BufRead>(r: &mut R, delim: u8, buf: &mut Vec<u8>) -> Result<usize>
    ensures { (taken : List Event) × Takes (tells ⟦<R as Read>⟧ r.old) taken (tells ⟦<R as Read>⟧ r.new)
        × (buf.new.items ≡ buf.old.items ++ event_bytes taken)
        × PieceEnds (λ n. vec_capacity buf.old < vec_len buf.old + n) delim (tells ⟦<R as Read>⟧ r.old) taken result }
{
    r.read_until(delim, buf)
}

// What any reader holds comes next, in each state.
fn holds_what_comes_next<R: BufRead>(r: &mut R) -> Result<usize>
    ensures { IfSome (to_come (tells ⟦<R as Read>⟧ r.old)) (λ E. BeginsWith E (⟦<R as Read>⟧.held r.old)) }
{
    let lent = r.fill_buf()?;
    Ok(lent.len())
}

/// A seek over a known content keeps it, and goes to its target, or is refused if there is none.
pub fn goes_to_its_target<T: Seek>(s: &mut T, target: SeekFrom) -> Result<u64>
    ensures { (was : Store) → T.store s.old ≡ Some was → (now : Store) × (T.store s.new ≡ Some now)
        × (now.content ≡ was.content) × Seeks (length was.content) was.position target result now.position }
{
    s.seek(target)
}

// After a seek of the inner reader itself, a `BufReader` tells its store if its held bytes agree with the content.
// So its own next seek goes from the first held byte.
fn goes_on_after_a_seek_below<R: Read + Seek + Drop, const S: usize>(
    r: &mut BufReader<R, S>,
    place: u64,
    target: SeekFrom,
) -> Result<u64>
    ensures { (was : Store) → R.store (reader_inner r.old) ≡ Some was → (front after : List ℕ)
        → was.content ≡ front ++ (reader_held r.old ++ after) → place ≡ length front + length (reader_held r.old)
        → (now : Store) × (reader_store R.store r.new ≡ Some now) × (now.content ≡ was.content)
        × Seeks (length was.content) (length front) target result now.position }
{
    r.get_mut().seek(SeekFrom::Start(place))?;
    r.seek(target)
}

// A `BufReader` over a known content is asked for its position without a loss: its buffer and its store stay.
fn knows_its_position<R: Read + Seek + Drop, const S: usize>(r: &mut BufReader<R, S>) -> Result<u64>
    ensures kept { KeepsBuffer r.old r.new }
    ensures store { KeepsContent (reader_store R.store r.old) (λ len was now. (now ≡ was) × (result ≡ Ok was))
        (reader_store R.store r.new) }
{
    r.position()
}

/// A `seek_relative` inside the buffer of a `BufReader` succeeds and makes no inner call, and the events to
/// come move along.
pub fn moves_inside_its_buffer<R: Read + Seek + Drop, const S: usize>(
    r: &mut BufReader<R, S>,
    offset: i64,
) -> Result<()>
    ensures { IsInBuffer offset (length (reader_behind r.old)) (length (reader_held r.old))
        → IsOk result × (reader_inner r.new ≡ reader_inner r.old) × TakesOver offset (reader_behind r.old) (reader_held r.old)
        (in_reader (tells R.Read) r.old) (in_reader (tells R.Read) r.new) }
{
    r.seek_relative(offset)
}

// The calls of a `read_exact` keep a `BufReader` sound, also if it fails half way.
fn stays_sound<R: Read, const S: usize>(r: &mut BufReader<R, S>, buf: &mut [u8]) -> Result<()>
    ensures { ReaderIsSound R.store r.old → ReaderIsSound R.store r.new }
{
    r.read_exact(buf)
}

// After a piece, the bytes behind in the buffer are a suffix of those behind before, followed by the piece.
fn keeps_the_last_bytes_behind<R: Read, const S: usize, A: Allocator>(
    r: &mut BufReader<R, S>,
    delim: u8,
    buf: &mut Vec<u8, A>,
) -> Result<usize>
    ensures { IsSuffix (reader_behind r.old ++ drop (vec_len buf.old) buf.new.items) (reader_behind r.new) }
{
    r.read_until(delim, buf)
}

// If a whole piece is held, `read_until` takes only held bytes.
fn takes_a_held_piece<R: Read, const S: usize, A: Allocator>(
    r: &mut BufReader<R, S>,
    delim: u8,
    buf: &mut Vec<u8, A>,
) -> Result<usize>
    ensures { (piece rest : List ℕ) → reader_held r.old ≡ piece ++ rest → EndsPiece delim piece
        → TakesHeld piece rest r.old buf.old.items result buf.new.items r.new }
{
    r.read_until(delim, buf)
}

// If a whole line is held, `read_line` takes only held bytes.
fn takes_a_held_line<R: Read, const S: usize>(
    r: &mut BufReader<R, S>,
    alloc: Global,
    text: &mut String,
) -> Result<usize>
    ensures { (line rest : List ℕ) → reader_held r.old ≡ line ++ rest → EndsPiece newline line
        → TakesHeldLine line rest r.old (string_bytes text.old) result (string_bytes text.new) r.new }
{
    r.read_line(alloc, text)
}
