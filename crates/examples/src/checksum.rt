//! A loop over a reader whose type is known only at run time: the checksum of all that it gives.
ghost use Rattle.std.specs.Prelude.{◌<◌, length};
ghost use Rattle.no_std_io2.specs.inner.Writers.{OfObject};
ghost use Rattle.examples.specs.Checksum.{SumsAll};

use crate::summed::add_all;
use no_std_io2::io::{Read, Result};

/// Reads to the end, in pieces of `buf.len()` bytes, and returns the sum of all bytes, modulo 2^64. Once it met the end or a
/// fault, it makes no read.
///
/// # Errors
/// Returns the first fault of the reader, which is then right after it.
pub fn checksum_of(r: &mut dyn Read, buf: &mut [u8]) -> Result<u64>
    requires some_room { 0 < length buf.old }
    ensures { OfObject r.old (λ old new. SumsAll (record {
      store = (Read-dyn r.old).Stored.store;
      turns = (Read-dyn r.old).Read.turns;
      events = (Read-dyn r.old).Read.events;
      may = (Read-dyn r.old).Read.may;
      held = (Read-dyn r.old).Read.held;
    }) old result new) r.new }
{
    let mut total = 0;
    'pieces: loop {
        let mut filled = 0;
        r.read_full(buf, &mut filled)?;
        total = add_all(total, &buf[..filled]);
        if filled < buf.len() {
            return Ok(total);
        }
    }
}
