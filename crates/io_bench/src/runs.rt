// [`run_writes`], a list of calls on any writer.
ghost use Rattle.std.specs.Prelude.{◌≡◌, ◌+◌, ◌<◌, ◌++◌, OnOk, OnErr, IfErr, length, vec_len, vec_capacity};
ghost use Rattle.no_std_io2.specs.{Errors.{IsOutOfMemory}, Calls.{ByCalls}, inner.Writers.{CallOf}};
ghost use Rattle.io_bench.specs.{Appended.{appended}, Runs.{OpCalls, RunLaw}};

use no_std_io2::io::{Error, Result, Write};
use std::alloc::Allocator;

/// A call to make on a writer.
#[derive(Clone, Copy, Debug, PartialEq, Eq, Drop)]
pub enum Op<'a> {
    /// `write` of these bytes.
    Write(&'a [u8]),
    /// `write_all` of these bytes.
    WriteAll(&'a [u8]),
    /// `flush`.
    Flush,
}

/// What a call returned.
#[derive(Debug, Drop)]
pub enum Reply {
    /// `write` took this many bytes.
    Took(usize),
    /// `write_all` or `flush` succeeded.
    Done,
    /// The call failed with this error.
    Failed(Error),
}

// Makes one call.
fn make_call<W: Write>(w: &mut W, op: Op<'_>) -> Reply
    ensures { ByCalls (CallOf W.Write) w.old (OpCalls op.entry result) w.new }
{
    match op {
        Op::Write(x) => match w.write(x) {
            Ok(n) => Reply::Took(n),
            Err(e) => Reply::Failed(e),
        },
        Op::WriteAll(x) => match w.write_all(x) {
            Ok(()) => Reply::Done,
            Err(e) => Reply::Failed(e),
        },
        Op::Flush => match w.flush() {
            Ok(()) => Reply::Done,
            Err(e) => Reply::Failed(e),
        },
    }
}

/// Makes the calls of `ops` on a writer, in order, and appends one reply for each. A failed call
/// does not stop it, so a retry is one more call in the list.
///
/// Every writer has then accepted exactly what the replies say: `out` followed by `held` is what it was before,
/// followed by the accepted bytes. If the last call is a flush that succeeded, nothing is held. If the writer tells its
/// mishaps to come, at most that many calls failed, with those kinds.
///
/// # Errors
/// Returns `OutOfMemory` if there is no room for the replies. Then no call was made, and the writer
/// and the replies are as they were. A failed call is a reply, not an error of the run.
pub fn run_writes<W: Write>(
    w: &mut W,
    ops: &[Op<'_>],
    replies: &mut Vec<Reply, impl Allocator>,
) -> Result<()>
    ensures appends { OnOk result (replies.new.items
        ≡ replies.old.items ++ appended replies.old.items replies.new.items) }
    // There is one reply for each call. Each call was made once, in order, and no other call; its reply is its result.
    ensures law { OnOk result (RunLaw W.Write w.old ops.now (appended replies.old.items replies.new.items) w.new) }
    ensures kind { IfErr result IsOutOfMemory }
    // It does not fail if there is room for the replies.
    ensures full { OnErr result (vec_capacity replies.old < vec_len replies.old + length ops.now) }
    ensures err { OnErr result ((w.new ≡ w.old) × (replies.new.items ≡ replies.old.items)) }
{
    replies.reserve(ops.len())?;
    'calls: for op in ops {
        let reply = make_call(w, *op);
        replies.push_reserved(reply);
    }
    Ok(())
}
