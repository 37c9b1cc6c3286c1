//! Functions over objects without a loop, and their callers, which know what became of the value that they lent.
ghost use Rattle.std.specs.Prelude.{◌≡◌, ◌++◌, IfOk, OnOk};
ghost use Rattle.no_std_io2.specs.{Reads.{TakesBytes}, Moves.{MovesFront}};

use crate::narrow::Narrow;
use no_std_io2::io::{Read, Result, Write};
use std::alloc::Global;
use std::collections::VecDeque;

/// Writes a text twice to an object.
///
/// # Errors
/// Returns the error of the writer behind the object, which then has accepted some front of the two texts.
pub fn put_twice(w: &mut dyn Write, text: &[u8]) -> Result<()>
    ensures { MovesFront (told w.old) (text.now ++ text.now) result (told w.new) }
{
    w.write_all(text)?;
    w.write_all(text)
}

/// Returns a new vector that has a text twice.
///
/// # Errors
/// Returns `OutOfMemory` if the vector cannot grow.
#[tactic(auto, using(no_std_io2::proofs::ObjectRules::lent_writer))]
pub fn doubled(alloc: Global, text: &[u8]) -> Result<Vec<u8>>
    ensures { IfOk result (λ v. v.items ≡ text.now ++ text.now) }
{
    let mut v = Vec::new(alloc);
    put_twice(&mut v, text)?;
    Ok(v)
}

/// Writes a text twice to a device of one's own.
///
/// # Errors
/// Returns the device's error. It has then taken some front of the two texts.
#[tactic(auto, using(crate::proofs::NarrowLemmas::lent_narrow))]
pub fn double_to(w: &mut Narrow, text: &[u8]) -> Result<()>
    ensures { OnOk result (w.new.taken.items ≡ w.old.taken.items ++ (text.now ++ text.now)) }
{
    put_twice(w, text)
}

/// Fills two buffers from an object, one after the other.
///
/// # Errors
/// Returns the error of the reader behind the object, and `UnexpectedEof` if there are too few bytes. Some of them may
/// be taken then.
pub fn take_pair(r: &mut dyn Read, a: &mut [u8], b: &mut [u8]) -> Result<()>
    ensures { OnOk result (TakesBytes (record { events = events r.old; store = store r.old; turns = turns r.old }) (a.new ++ b.new)
        (record { events = events r.new; store = store r.new; turns = turns r.new })) }
{
    r.read_exact(a)?;
    r.read_exact(b)
}

/// Fills two buffers from the front of a queue.
///
/// # Errors
/// Returns `UnexpectedEof` if the queue has too few bytes. Those of `a` may be taken then.
#[tactic(auto, using(no_std_io2::proofs::ObjectRules::lent_reader))]
pub fn take_front(q: &mut VecDeque<u8>, a: &mut [u8], b: &mut [u8]) -> Result<()>
    ensures { OnOk result (q.old.items ≡ (a.new ++ b.new) ++ q.new.items) }
{
    take_pair(q, a, b)
}
