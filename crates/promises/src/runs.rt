// Whole runs of calls, retries included.
ghost use Rattle.std.specs.Prelude.{◌≡◌, ◌+◌, ◌<◌, ◌≤◌, List, ℕ, ◌++◌, IfSome, OnErr, OnOk, length, vec_capacity, vec_len};
ghost use Rattle.io_bench.specs.{Appended.{appended}, Runs.{Run, RunCalls, failures}};
ghost use Rattle.promises.specs.Promises.{bytes_in};

use io_bench::{Op, Reply, run_writes};
use no_std_io2::io::{Result, Write};

/// Whatever the list of calls, each call was made, once and in order, and every writer has accepted exactly what the
/// replies say. If a device tells how many failures are to come, at most that many calls fail; if none is, none fails.
/// The run fails only if there is no room for the replies; then no call was made.
pub fn accepts_by_its_replies<W: Write>(
    w: &mut W,
    ops: &[Op<'_>],
    replies: &mut Vec<Reply>,
) -> Result<()>
    ensures bytes { OnOk result ((bytes : List ℕ) × Run ops.now (appended replies.old.items replies.new.items) bytes
        × (bytes_in (W.told w.new) ≡ bytes_in (W.told w.old) ++ bytes)) }
    ensures failures { OnOk result (IfSome (W.told w.old).mishaps
        (λ m. failures ops.now (appended replies.old.items replies.new.items) ≤ length m)) }
    ensures calls { OnOk result (RunCalls W.Write w.old ops.now
        (appended replies.old.items replies.new.items) w.new) }
    ensures fails { OnErr result ((vec_capacity replies.old < vec_len replies.old + length ops.now)
        × (w.new ≡ w.old) × (replies.new.items ≡ replies.old.items)) }
{
    run_writes(w, ops, replies)
}
