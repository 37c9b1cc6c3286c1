// How many calls the inner stream gets: each number that counts its calls rises by so many. A `Tally` has
// such a number.
ghost use Rattle.std.specs.{Prelude.{ℕ, ◌≡◌, ◌+◌, ◌<◌, ◌^◌, min, nat_lt, if◌then◌else◌, length, IfOk, IsOkAnd, Ok, OnOk}, Int.{div_ceil}};
ghost use Rattle.no_std_io2.specs.{BufReader.{reader_held, reader_inner}, BufWriter.{writer_buffer, writer_inner}};
ghost use Rattle.no_std_io2.specs.inner.{BufWriter.{writing_calls}, Meter.{Costs}, Take.{limit_inner}, Charges.{calls_for}};
ghost use Rattle.no_std_io2.specs.{Meter.{IsMeter, FillsRoom, IsReadMeter}, Takes.{answered, gave_front, tells, bytes_left, Takes}};
ghost use Rattle.no_std_io2.specs.Writers.{TakesAll};
ghost use Rattle.io_bench.specs.Tally.{tally_inner, tally_reads, tally_writes};
ghost use Rattle.promises.specs.{Counts.{exact_left, exact_reads}, Loops.{CountsLoop, CountsToEnd}, Promises.{in_reader}};

use io_bench::Tally;
use no_std_io2::io::{
    AsSlice, BufRead, BufReader, BufWriter, Cursor, IntoInnerError, Read, Result, Take, Write, copy,
};
use std::alloc::Allocator;

// Over a device that takes all, a `write` takes all. It makes one inner write if held bytes must be sent first, and
// one more for S bytes or more.
fn counts_a_write<W: Write + Drop, const S: usize>(
    w: &mut Box<BufWriter<Tally<W>, S>>,
    x: &[u8],
) -> Result<usize>
    ensures { TakesAll W.Write (tally_inner (writer_inner w.old.value)) → (result ≡ Ok (length x.now))
        × (tally_writes (writer_inner w.new.value)
        ≡ tally_writes (writer_inner w.old.value) + writing_calls S (writer_buffer w.old.value) x.now) }
{
    w.write(x)
}

// So does a `write_all`. With S = 0 an empty one makes none.
fn counts_a_write_all<W: Write + Drop, const S: usize>(
    w: &mut BufWriter<W, S>,
    x: &[u8],
) -> Result<()>
    ensures { 0 < S
        → Costs W.Write (writer_inner w.old) (writing_calls S (writer_buffer w.old) x.now) (writer_inner w.new) }
{
    w.write_all(x)
}

// A `flush` makes one inner write if some bytes are held.
fn counts_a_flush<W: Write + Drop, const S: usize>(w: &mut BufWriter<W, S>) -> Result<()>
    ensures { Costs W.Write (writer_inner w.old) (calls_for (writer_buffer w.old)) (writer_inner w.new) }
{
    w.flush()
}

// So does an `into_inner`.
fn counts_an_into_inner<W: Write + Drop, const S: usize>(
    w: BufWriter<W, S>,
) -> std::result::Result<W, IntoInnerError<BufWriter<W, S>>>
    ensures { IfOk result (λ t. Costs W.Write (writer_inner w) (calls_for (writer_buffer w)) t) }
{
    w.into_inner()
}

// A `read` takes what comes next. It makes one inner read if nothing is held, and else none.
fn counts_a_read<R: Read, const S: usize>(
    r: &mut Box<BufReader<Tally<R>, S>>,
    buf: &mut [u8],
) -> Result<usize>
    ensures takes { Takes (in_reader (λ t. tells R.Read (tally_inner t)) r.old.value) (answered (gave_front result buf.new))
        (in_reader (λ t. tells R.Read (tally_inner t)) r.new.value) }
    ensures reads { tally_reads (reader_inner r.new.value) ≡ tally_reads (reader_inner r.old.value)
        + (if nat_lt 0 (length (reader_held r.old.value)) then 0 else 1) }
    ensures fills { FillsRoom R.Read (tally_inner (reader_inner r.old.value))
        → FillsRoom ⟦<Tally<R> as Read>⟧ (reader_inner r.new.value)
        × IsOkAnd result (λ n. n ≡ min (length buf.old) (if nat_lt 0 (length (reader_held r.old.value))
        then length (reader_held r.old.value) else length (bytes_left R.Read (tally_inner (reader_inner r.old.value))))) }
{
    r.read(buf)
}

// So does a `fill_buf`.
fn counts_a_fill<R: Read, const S: usize>(r: &mut BufReader<R, S>) -> Result<usize>
    ensures reads { (cost : R → ℕ) → IsReadMeter R.may cost → cost (reader_inner r.new) ≡ cost (reader_inner r.old)
        + (if nat_lt 0 (length (reader_held r.old)) then 0 else 1) }
    ensures fills { FillsRoom R.Read (reader_inner r.old) → FillsRoom R.Read (reader_inner r.new)
        × IsOkAnd result (λ n. (n ≡ length (reader_held r.new))
        × (n ≡ (if nat_lt 0 (length (reader_held r.old)) then length (reader_held r.old)
        else min S (length (bytes_left R.Read (reader_inner r.old)))))) }
{
    let lent = r.fill_buf()?;
    Ok(lent.len())
}

// A `read_exact` of a `BufReader` makes at most two inner reads of a reader that fills its room.
fn counts_an_exact_read<R: Read, const S: usize>(
    r: &mut BufReader<R, S>,
    buf: &mut [u8],
) -> Result<()>
    ensures reads { (cost : R → ℕ) → IsReadMeter R.may cost → FillsRoom R.Read (reader_inner r.old)
        → cost (reader_inner r.new) ≡ cost (reader_inner r.old) + exact_reads (length buf.old) (length (reader_held r.old))
        (length (reader_held r.old) + length (bytes_left R.Read (reader_inner r.old))) }
    ensures left { FillsRoom R.Read (reader_inner r.old) → FillsRoom R.Read (reader_inner r.new)
        × (length (reader_held r.new) ≡ exact_left S (length buf.old) (length (reader_held r.old))
        (length (reader_held r.old) + length (bytes_left R.Read (reader_inner r.old)))) }
{
    r.read_exact(buf)
}

// A `read_exact` of a type without one of its own makes at most one read for each turn that is spent, and one
// that stops it.
fn counts_a_read_exact<R: Read>(t: &mut Tally<R>, buf: &mut [u8]) -> Result<()>
    ensures counts { CountsLoop (length buf.old) (R.turns (tally_inner t.old)) (tally_reads t.old) result
        (R.turns (tally_inner t.new)) (tally_reads t.new) }
    ensures writes { tally_writes t.new ≡ tally_writes t.old }
{
    t.read_exact(buf)
}

// So does a `read_to_end`, and one that meets the end.
fn counts_a_read_to_end<R: Read, A: Allocator>(
    t: &mut Tally<R>,
    buf: &mut Vec<u8, A>,
) -> Result<usize>
    ensures counts { CountsToEnd (tally_reads t.old) (R.turns (tally_inner t.old)) result
        (R.turns (tally_inner t.new)) (tally_reads t.new) }
    ensures writes { tally_writes t.new ≡ tally_writes t.old }
{
    t.read_to_end(buf)
}

// A `copy` through S bytes of a filling reader makes one read for each S bytes, rounded up, and one more.
fn counts_a_copy<R: Read, W: Write, const S: usize>(reader: &mut R, writer: &mut W) -> Result<u64>
    requires { S < 2 ^ 63 }
    ensures { (cost : R → ℕ) → IsReadMeter R.may cost → 0 < S → FillsRoom R.Read reader.old → OnOk result
        (cost reader.new ≡ cost reader.old + (div_ceil (length (bytes_left R.Read reader.old)) S + 1)) }
{
    copy::<R, W, S>(reader, writer)
}

// Slices and cursors are filling.
fn has_filling_readers<'a, T: AsSlice<u8>>(t: &Take<Box<Cursor<T>>>, s: &&'a [u8]) -> (u64, usize)
    ensures cursor { FillsRoom ⟦<Take<Box<Cursor<T>>> as Read>⟧ t.now }
    ensures slice { FillsRoom ⟦<&'a [u8] as Read>⟧ s.now }
{
    (t.limit(), s.len())
}

// A reference to a reader, its box, a `Take` and a `Tally` of it are filling where it is.
fn has_filling_levels<'a, R: Read>(
    lent: &&'a mut R,
    boxed: &Box<R>,
    limited: &Take<R>,
    counted: &Tally<R>,
) -> (u64, u64)
    ensures lent { FillsRoom R.Read lent.now.now → FillsRoom ⟦<&'a mut R as Read>⟧ lent.now }
    ensures boxed { FillsRoom R.Read boxed.now.value → FillsRoom ⟦<Box<R> as Read>⟧ boxed.now }
    ensures limited { FillsRoom R.Read (limit_inner limited.now) → FillsRoom ⟦<Take<R> as Read>⟧ limited.now }
    ensures counted { FillsRoom R.Read (tally_inner counted.now) → FillsRoom ⟦<Tally<R> as Read>⟧ counted.now }
{
    (limited.limit(), counted.reads())
}

// A number that counts the calls of a writer counts those of a reference to it and of its box.
fn has_meters<'a, W: Write>(_lent: &&'a mut W, _boxed: &Box<W>)
    ensures lent { (cost : W → ℕ) → IsMeter W.may cost → IsMeter ⟦<&'a mut W as Write>⟧.may (λ v. cost v.now) }
    ensures boxed { (cost : W → ℕ) → IsMeter W.may cost → IsMeter ⟦<Box<W> as Write>⟧.may (λ v. cost v.value) }
{}

// So it is with the reads of a reader; and the count of a `Tally` counts them.
fn has_read_meters<'a, R: Read>(_lent: &&'a mut R, _boxed: &Box<R>, _counted: &Tally<R>)
    ensures lent { (cost : R → ℕ) → IsReadMeter R.may cost → IsReadMeter ⟦<&'a mut R as Read>⟧.may (λ v. cost v.now) }
    ensures boxed { (cost : R → ℕ) → IsReadMeter R.may cost → IsReadMeter ⟦<Box<R> as Read>⟧.may (λ v. cost v.value) }
    ensures counted { IsReadMeter ⟦<Tally<R> as Read>⟧.may tally_reads }
{}
