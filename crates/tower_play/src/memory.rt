// The functions that allocate. Only this module makes a `Refused`, and only if an allocation failed. So no other code
// of the program can report a failed allocation.
ghost use Rattle.std.specs.Prelude.{◌≡◌, ℕ, List, ◌++◌, ◌+◌, ◌≤◌, ◌<◌, length, vec_len, vec_capacity, Some, OnOk, OnErr, IfOk};
ghost use Rattle.io_bench.specs.Runs.{RunLaw};

use io_bench::{Op, Reply, run_writes};
use std::alloc::{Allocator, Global};
use std::fmt::Display;
use std::io::Write;

/// The error of a failed allocation.
#[derive(Drop)]
pub struct Refused(());

/// Makes room in a vector for `more` more elements.
pub fn reserve<T>(list: &mut Vec<T>, more: usize) -> Result<(), Refused>
    ensures items { list.new.items ≡ list.old.items }
    ensures room { OnOk result (vec_len list.new + more ≤ vec_capacity list.new) }
    // It does not fail if there is room.
    ensures full { OnErr result (vec_capacity list.old < vec_len list.old + more) }
{
    match list.reserve(more) {
        Ok(()) => Ok(()),
        Err(_refused) => Err(Refused(())),
    }
}

/// Appends these bytes.
pub fn push<A: Allocator>(text: &mut Vec<u8, A>, bytes: &[u8]) -> Result<(), Refused>
    ensures ok { OnOk result (text.new.items ≡ text.old.items ++ bytes.now) }
    // It does not fail if there is room for the bytes.
    ensures full { OnErr result (vec_capacity text.old < vec_len text.old + length bytes.now) }
{
    match text.extend_from_slice(bytes) {
        Ok(()) => Ok(()),
        Err(_refused) => Err(Refused(())),
    }
}

/// Appends the printed text of a value.
pub fn push_shown<A: Allocator, D: Display>(text: &mut Vec<u8, A>, value: &D) -> Result<(), Refused>
    ensures ok { (shown : List ℕ) → D.output value.now ≡ Some shown → OnOk result (text.new.items ≡ text.old.items ++ shown) }
{
    match write!(text, "{value}") {
        Ok(()) => Ok(()),
        Err(_refused) => Err(Refused(())),
    }
}

/// Makes these calls of a writer in order, and returns their replies. If an allocation fails, no call
/// was made.
pub fn replies_of<W: no_std_io2::io::Write>(
    alloc: Global,
    w: &mut W,
    ops: &[Op<'_>],
) -> Result<Vec<Reply>, Refused>
    ensures law { IfOk result (λ replies. RunLaw W.Write w.old ops.now replies.items w.new) }
    ensures err { OnErr result (w.new ≡ w.old) }
    // It does not fail if there are no calls.
    ensures full { OnErr result (0 < length ops.now) }
{
    let mut replies = Vec::new(alloc);
    match run_writes(w, ops, &mut replies) {
        Ok(()) => Ok(replies),
        Err(_refused) => Err(Refused(())),
    }
}
