// [`joined`], which finds the bytes that a run accepted from its calls and replies.
ghost use Rattle.std.specs.Prelude.{◌≡◌, ℕ, List, [], Some, None, true, false, IfSome, IfOk, IfErr};
ghost use Rattle.no_std_io2.specs.Errors.{IsOutOfMemory};
ghost use Rattle.io_bench.specs.{Runs.{Accepts, Run}, Joined.{IsClear, AreClear, IsJoined, HasIdleFailure}};

use crate::runs::{Op, Reply};
use no_std_io2::io::Result;
use std::alloc::Global;

// Returns the bytes that a call with this reply accepted, if the reply says so.
fn front_of<'a>(op: &Op<'a>, reply: &Reply) -> Option<&'a [u8]>
    ensures some { IfSome result (λ front. IsClear op.now reply.now × Accepts op.now reply.now front.now) }
    ensures none { result ≡ None → IsClear op.now reply.now → ⊥ }
{
    match (op, reply) {
        (Op::Write(x), Reply::Took(n)) if *n <= x.len() => Some(&x[..*n]),
        (Op::WriteAll(x), Reply::Done) => Some(x),
        (Op::Write(_) | Op::Flush, Reply::Failed(_)) | (Op::Flush, Reply::Done) => Some(&[]),
        _ => None,
    }
}

// Returns whether each call has one reply that says what was accepted.
fn are_clear(ops: &[Op<'_>], replies: &[Reply]) -> bool
    ensures yes { result ≡ true → AreClear ops.now replies.now }
    ensures no { result ≡ false → AreClear ops.now replies.now → ⊥ }
{
    if ops.len() != replies.len() {
        return false;
    }
    'calls: for i in 0..ops.len() {
        let Some(_) = front_of(&ops[i], &replies[i]) else {
            return false;
        };
    }
    true
}

/// Returns the bytes that a run of these calls accepted, in order, if the replies determine them. Then `out` followed
/// by `held` of the writer is what it was before the run, followed by these bytes.
///
/// Returns `None` if the replies do not determine the bytes: if the lists differ in length, if a reply does not
/// fit its call (such as a `write` that took more bytes than it had), or if a `write_all` failed, which may have
/// accepted any first bytes. Nothing is allocated for `None`.
///
/// # Errors
/// Returns `OutOfMemory` if there is no room for the bytes.
///
/// ```rust
/// let ops = [Op::Write(b"abc"), Op::Flush];
/// let replies = [Reply::Took(2), Reply::Done];
/// let accepted = joined(rt.alloc(), &ops, &replies)?;
/// assert!(rt; accepted.is_some_and(|bytes| bytes.as_slice() == b"ab".as_slice()));
/// ```
pub fn joined(alloc: Global, ops: &[Op<'_>], replies: &[Reply]) -> Result<Option<Vec<u8>>>
    // The result is `Some` if and only if each reply says what was accepted, and then it is the
    // only such list.
    ensures known { IfOk result (λ answer. IfSome answer (λ bytes. IsJoined ops.now replies.now bytes.items)) }
    ensures clear { IfOk result (λ answer. IfSome answer (λ _. AreClear ops.now replies.now)) }
    ensures open { IfOk result (λ answer. answer ≡ None → AreClear ops.now replies.now → ⊥) }
    // If the result is `None`, no single list fits the replies, except for a `write_all` of no bytes that failed.
    ensures no_one { IfOk result (λ answer. answer ≡ None → (bytes : List ℕ) → IsJoined ops.now replies.now bytes
        → HasIdleFailure ops.now replies.now) }
    // An allocation can fail only if some byte was accepted.
    ensures err { IfErr result (λ e. IsOutOfMemory e × AreClear ops.now replies.now × (Run ops.now replies.now [] → ⊥)) }
{
    if !are_clear(ops, replies) {
        return Ok(None);
    }
    let mut bytes = Vec::new(alloc);
    'calls: for i in 0..ops.len() {
        if let Some(front) = front_of(&ops[i], &replies[i]) {
            bytes.extend_from_slice(front)?;
        }
    }
    Ok(Some(bytes))
}
