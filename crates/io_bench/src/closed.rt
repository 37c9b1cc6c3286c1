// [`run_closed`], a list of calls through one `BufWriter` that is then closed.
ghost use Rattle.std.specs.Prelude.{◌≡◌, ◌+◌, ◌*◌, ◌/◌, ◌<◌, ◌≤◌, [], ◌++◌, Ok, IfErr, IfOk, OnErr, OnOk, length, vec_capacity, vec_len};
ghost use Rattle.no_std_io2.specs.BufWriter.{BufWriterFits, Unwraps, writer_inner, writer_buffer};
ghost use Rattle.no_std_io2.specs.{declared.io.BufWriter.{BufWriter as Buffered}, Errors.{IsOutOfMemory}, Moves.{Moves}};
ghost use Rattle.no_std_io2.specs.Writers.{TakesAll};
ghost use Rattle.io_bench.specs.{Appended.{appended}, Closed.{flush_count, given_bytes}, Runs.{AreWhole, RunLaw}};
ghost use Rattle.io_bench.specs.{declared.tally.Tally.{Tally as Counted}, Tally.{tally_inner, tally_writes}};
ghost use Rattle.io_bench.specs.contracts.tally.Tally.{the_row as tally-row};

use crate::runs::{Op, Reply, run_writes};
use crate::tally::Tally;
use no_std_io2::io::{BufWriter, Error, Result, Write};
use std::alloc::Allocator;

/// Makes the calls of `ops`, in order, on a new `BufWriter` of `S` bytes over `w`, closes it by
/// `into_inner`, and returns `w`. Appends one reply for each call. The inner writer of `w` takes all,
/// and `S` is above 0.
///
/// Each call then succeeds and accepts all its bytes: each reply is `Took` of the whole length, or
/// `Done`. The inner writer got the bytes of all calls, and still takes all. For N bytes and F flushes
/// `w` counts at most `2 * (N / (S + 1)) + F + 1` writes more.
///
/// # Errors
/// Returns `OutOfMemory` if there is no room for the replies. Then no call was made, the replies are
/// as they were, and `w` is dropped.
pub fn run_closed<W: Write + Drop, const S: usize>(
    w: Tally<W>,
    ops: &[Op<'_>],
    replies: &mut Vec<Reply, impl Allocator>,
) -> Result<Tally<W>>
    requires some { 0 < S }
    requires all { TakesAll W.Write (tally_inner w) }
    // The `BufWriter` has to fit in memory.
    requires fits { BufWriterFits (tally-row W.row) S }
    ensures appends { OnOk result (replies.new.items
        ≡ replies.old.items ++ appended replies.old.items replies.new.items) }
    // The calls were made of a new buffer, which was then closed, and no others.
    ensures calls { IfOk result (λ t. (old now : Buffered (Counted W) S) × (writer_inner old ≡ w) × (writer_buffer old ≡ [])
        × RunLaw ⟦<BufWriter<Tally<W>, S> as Write>⟧ old ops.now (appended replies.old.items replies.new.items) now
        × Unwraps ⟦<Tally<W> as Write>⟧ writer_inner writer_buffer now (Ok t)) }
    // There is one reply for each call, and each is whole.
    ensures whole { OnOk result (AreWhole ops.now (appended replies.old.items replies.new.items)) }
    // No byte is lost, and no mishap came.
    ensures bytes { IfOk result (λ t. Moves (W.told (tally_inner w)) (given_bytes ops.now) [] (W.told (tally_inner t))) }
    ensures all { IfOk result (λ t. TakesAll W.Write (tally_inner t)) }
    ensures bound { IfOk result (λ t. tally_writes t
        ≤ tally_writes w + (2 * (length (given_bytes ops.now) / (S + 1)) + flush_count ops.now + 1)) }
    ensures kind { IfErr result IsOutOfMemory }
    // It does not fail if there is room for the replies.
    ensures full { OnErr result (vec_capacity replies.old < vec_len replies.old + length ops.now) }
    ensures err { OnErr result (replies.new.items ≡ replies.old.items) }
{
    let mut buffered = BufWriter::<Tally<W>, S>::new(w);
    run_writes(&mut buffered, ops, replies)?;
    match buffered.into_inner() {
        Ok(tally) => Ok(tally),
        Err(e) => Err(Error::from(e)),
    }
}
