// Which calls the device gets.
ghost use Rattle.std.specs.Prelude.{◌≡◌, ◌+◌, ◌*◌, ◌/◌, ◌<◌, ◌≤◌, ◌++◌, [], IfErr, IfOk, Ok, OnOk, length, vec_capacity, vec_len};
ghost use Rattle.no_std_io2.specs.{BufWriter.{BufWriterFits, writer_buffer, writer_inner, writer_told}, Errors.{IsOutOfMemory}};
ghost use Rattle.no_std_io2.specs.{Calls.{ByCalls}, Moves.{Moves}, Write.{accepted_of, write_mishap}, inner.Writers.{CallOf}};
ghost use Rattle.no_std_io2.specs.{inner.Meter.{CostsAtMost}, Writers.{TakesAll}};
ghost use Rattle.io_bench.specs.Closed.{flush_count, given_bytes};
ghost use Rattle.promises.specs.Promises.{EndsInFlush, EndsIn, HasNoFlush};

use io_bench::{Op, Reply, run_writes};
use no_std_io2::io::{BufWriter, Error, Result, Write};

/// A `write` passes on the error of the call of the device that failed, with its message, and that call is the last:
/// the fault is not hidden, and nothing is flushed. The bytes that its result reports are in the device or the buffer.
pub fn stops_at_a_fault_of_a_write<W: Write + Drop, const S: usize>(
    w: &mut BufWriter<W, S>,
    x: &[u8],
) -> Result<usize>
    ensures calls { ByCalls (CallOf W.Write) (writer_inner w.old) (λ C. HasNoFlush C × IfErr result (EndsIn C)) (writer_inner w.new) }
    ensures moves { Moves (writer_told W.told w.old) (accepted_of result x.now) (write_mishap result x.now) (writer_told W.told w.new) }
{
    w.write(x)
}

/// So does a `flush`. If it returns `Ok`, its last call is a flush of the device that succeeded.
pub fn stops_at_a_fault_of_a_flush<W: Write + Drop, const S: usize>(
    w: &mut BufWriter<W, S>,
) -> Result<()>
    ensures calls { ByCalls (CallOf W.Write) (writer_inner w.old)
        (λ C. IfErr result (EndsIn C) × OnOk result (EndsInFlush C)) (writer_inner w.new) }
    ensures empty { OnOk result (writer_buffer w.new ≡ []) }
{
    w.flush()
}

/// A `write` that is shorter than the buffer and fits makes no call of the device, and so cannot fail. Its
/// bytes are held.
pub fn makes_no_call_if_it_fits<W: Write + Drop, const S: usize>(
    w: &mut BufWriter<W, S>,
    x: &[u8],
) -> Result<usize>
    ensures { length x.now < S → length (writer_buffer w.old) + length x.now ≤ S
        → (result ≡ Ok (length x.now)) × (writer_inner w.new ≡ writer_inner w.old)
        × (writer_buffer w.new ≡ writer_buffer w.old ++ x.now) }
{
    w.write(x)
}

/// Over a device that takes every write whole, a run of N bytes and F flushes, closed by `into_inner`, gives the device
/// all bytes, and makes at most `2 * (N / (S + 1)) + F + 1` writes, by each number that counts the writes of the
/// device, such as that of a `Tally`. It fails only if there is no room for the replies.
pub fn bounds_the_writes_of_a_run<W: Write + Drop, const S: usize>(
    device: W,
    ops: &[Op<'_>],
    replies: &mut Vec<Reply>,
) -> Result<W>
    requires some { 0 < S }
    requires all { TakesAll W.Write device }
    requires fits { BufWriterFits W.row S }
    ensures bytes { IfOk result (λ t. Moves (W.told device) (given_bytes ops.now) [] (W.told t)) }
    ensures bound { IfOk result (λ t. CostsAtMost W.Write device
        (2 * (length (given_bytes ops.now) / (S + 1)) + flush_count ops.now + 1) t) }
    ensures fails { IfErr result (λ e. IsOutOfMemory e × (vec_capacity replies.old < vec_len replies.old + length ops.now)) }
{
    let mut buffered = BufWriter::<W, S>::new(device);
    run_writes(&mut buffered, ops, replies)?;
    match buffered.into_inner() {
        Ok(inner) => Ok(inner),
        Err(e) => Err(Error::from(e)),
    }
}
