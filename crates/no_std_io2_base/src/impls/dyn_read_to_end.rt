// The `read_to_end` of the trait objects. The checker leaves no method with a type parameter to its
// trait at a trait object, and such a method can't call a function over `Read`. So `drain` is over a
// trait that has only the object's `read`. It makes the object a reader with no other call, which
// runs the trait's own `read_to_end`. A queue calls it too, once it has made room.
ghost use Rattle.std.specs.Prelude.{◌≡◌};
ghost use Rattle.no_std_io2_base.specs.Calls.{PartMay};
ghost use Rattle.no_std_io2_base.specs.Takes.{Reader};
ghost use Rattle.no_std_io2_base.specs.Read.{ReadLaw, ReadToEndLaw};

use crate::error::Result;
use crate::traits::{Read, Stored};
use std::alloc::Allocator;

/// A trait object that can be read.
pub(super) trait ReadObject {
    ghost reader: { Reader Self };

    /// The object's `read`.
    fn read_object(&mut self, buf: &mut [u8]) -> Result<usize>
        ensures law { ReadLaw reader self.old buf.old result buf.new self.new };
}

/// An object as a reader that has only its `read`, and so the trait's own `read_to_end`.
#[derive(Drop)]
struct ByRead<'a, O> {
    object: &'a mut O,
}

impl<O: ReadObject> Stored for ByRead<'_, O> {
    ghost store = { λ r. O.reader.store r.object.now };
}

impl<O: ReadObject> Read for ByRead<'_, O> {
    ghost turns = { λ r. O.reader.turns r.object.now };

    ghost events = { λ r. O.reader.events r.object.now };

    ghost may = { λ old call new. PartMay O.reader.may (λ r. r.now) (λ r o. record r { now = o }) old.object call new.object };

    ghost held = { λ r. O.reader.held r.object.now };

    fn read(&mut self, buf: &mut [u8]) -> Result<usize> {
        self.object.read_object(buf)
    }
}

/// [`Read::read_to_end`] of that reader. The clause `reference` tells `drain` that the reader still
/// holds the same reference, so what happened to the object is known there.
fn drain_by_read<O: ReadObject, A: Allocator>(
    reader: &mut ByRead<O>,
    buf: &mut Vec<u8, A>,
) -> Result<usize>
    ensures reference { reader.new.object.ghost_name ≡ reader.old.object.ghost_name }
    ensures law { ReadToEndLaw O.reader reader.old.object.now buf.old result buf.new reader.new.object.now }
{
    reader.read_to_end(buf)
}

/// [`Read::read_to_end`] of an object.
pub(super) fn drain<O: ReadObject, A: Allocator>(
    object: &mut O,
    buf: &mut Vec<u8, A>,
) -> Result<usize>
    ensures law { ReadToEndLaw O.reader object.old buf.old result buf.new object.new }
{
    let mut reader = ByRead { object };
    drain_by_read(&mut reader, buf)
}
