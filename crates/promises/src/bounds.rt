// At most how many calls the device gets, by each number that counts its calls. A `Tally` has such a number.
ghost use Rattle.std.specs.Prelude.{◌≡◌, ◌+◌, ◌-◌, ◌/◌, ◌≤◌, IsOk, length};
ghost use Rattle.no_std_io2.specs.{LineWriter.{line_inner}, inner.Meter.{CostsAtMost}, Meter.{FillsRoom}, Moves.{Moves, MovesFront}};
ghost use Rattle.no_std_io2.specs.{Write.{accepted_of, write_mishap}, BufReader.{reader_inner}, Writers.{TakesAll}};
ghost use Rattle.io_bench.specs.{Asks.{AllFit, CameTo, Steps, left_behind}, Tally.{tally_inner, tally_reads}};
ghost use Rattle.promises.specs.Promises.{in_lines};

use io_bench::{Ask, ReadTotals, Tally, run_reads};
use no_std_io2::io::{BufRead, BufReader, LineWriter, Read, Result, Write};

/// If a list of `read`, `read_exact` and `fill_buf` with `consume` through a buffer of S bytes takes N bytes of a reader
/// that fills its room, and meets the end Z times, it makes at most `N / S + 1 + Z` inner reads. Each call of the list is
/// made, once and in order; it gives at least one byte, except at the end; none fails; and the reader stays filling.
pub fn bounds_the_reads_of_a_run<R: Read, const S: usize>(
    r: &mut BufReader<Tally<R>, S>,
    asks: &[Ask],
    buf: &mut [u8],
) -> ReadTotals
    requires { AllFit (length buf.old) asks.now }
    ensures made { CameTo ⟦<BufReader<Tally<R>, S> as Read>⟧ asks.now r.old result.at_end result.failed r.new }
    ensures fills { FillsRoom R.Read (tally_inner (reader_inner r.old)) → FillsRoom ⟦<Tally<R> as Read>⟧ (reader_inner r.new) }
    ensures steps { FillsRoom R.Read (tally_inner (reader_inner r.old)) → (result.failed ≡ 0)
        × Steps asks.now (left_behind ⟦<Tally<R> as Read>⟧ r.old) (left_behind ⟦<Tally<R> as Read>⟧ r.new) result.at_end }
    ensures bound { FillsRoom R.Read (tally_inner (reader_inner r.old))
        → tally_reads (reader_inner r.new) ≤ tally_reads (reader_inner r.old)
        + ((length (left_behind ⟦<Tally<R> as Read>⟧ r.old) - length (left_behind ⟦<Tally<R> as Read>⟧ r.new)) / S
        + 1 + result.at_end) }
{
    run_reads(r, asks, buf)
}

/// Over a device that takes every write whole, a `write` of a `LineWriter` makes at most 3 inner writes and succeeds.
/// Over every device the bytes that its result reports are accepted.
pub fn bounds_the_writes_of_a_line_write<W: Write + Drop, const S: usize>(
    w: &mut Box<LineWriter<W, S>>,
    x: &[u8],
) -> Result<usize>
    ensures bound { CostsAtMost W.Write (line_inner w.old.value) 3 (line_inner w.new.value) }
    ensures all { TakesAll W.Write (line_inner w.old.value) → TakesAll W.Write (line_inner w.new.value) × IsOk result }
    ensures moves { Moves (in_lines W.told w.old.value) (accepted_of result x.now) (write_mishap result x.now)
        (in_lines W.told w.new.value) }
{
    w.write(x)
}

/// So does a `write_all`.
pub fn bounds_the_writes_of_a_line_write_all<W: Write + Drop, const S: usize>(
    w: &mut LineWriter<W, S>,
    x: &[u8],
) -> Result<()>
    ensures bound { CostsAtMost W.Write (line_inner w.old) 3 (line_inner w.new) }
    ensures all { TakesAll W.Write (line_inner w.old) → TakesAll W.Write (line_inner w.new) × IsOk result }
    ensures moves { MovesFront (in_lines W.told w.old) x.now result (in_lines W.told w.new) }
{
    w.write_all(x)
}
