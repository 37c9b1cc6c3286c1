//! [`Empty`], a stream without bytes; [`Repeat`], one byte many times; and [`Sink`], a writer that takes all.
//! [`makers`](crate::makers) has the functions that make them.
ghost use Rattle.std.specs.Prelude.{◌≡◌, [], length, replicate, Some, ⊤};
ghost use Rattle.no_std_io2_base.specs.Events.{events_of};
ghost use Rattle.no_std_io2_base.specs.inner.InMemory.{GivesLeft, repeat_left, sink_taken, sink_told, SinkMay};
ghost use Rattle.no_std_io2_base.specs.Calls.{Gave};
ghost use Rattle.no_std_io2_base.specs.Read.{ReadLaw};
ghost use Rattle.no_std_io2_base.specs.Takes.{gave_front};

use crate::error::Result;
use crate::ghost_bytes::GhostBytes;
use crate::traits::{BufRead, Read, Seek, SeekFrom, Stored, Write};
use std::fmt;

/// A reader that is at its end, and a writer that takes every byte like a [`Sink`]. Each seek returns 0, and no
/// call fails. Made by [`empty`](crate::makers::empty); follows `std::io::Empty`.
#[derive(Drop)]
pub struct Empty {
    sink: Sink,
}

impl Default for Empty {
    ghost is_default = { λ e. sink_taken e.sink ≡ [] };

    fn default() -> Empty {
        Empty { sink: Sink::new() }
    }
}

/// Tells no store, because its position is 0 after every seek.
impl Stored for Empty {}

/// Tells that no event is to come.
impl Read for Empty {
    ghost turns = { λ _. 0 };

    ghost events = { λ _. Some [] };

    fn read(&mut self, _buf: &mut [u8]) -> Result<usize> {
        Ok(0)
    }
}

/// Holds nothing.
impl BufRead for Empty {
    fn fill_buf(&mut self) -> Result<&[u8]> {
        Ok(&[])
    }

    fn consume(&mut self, _amount: usize) {}
}

/// Each seek returns 0.
impl Seek for Empty {
    ghost use Rattle.no_std_io2_base.specs.inner.InMemory.{StaysAtStart};

    ghost may = { StaysAtStart };

    fn seek(&mut self, _pos: SeekFrom) -> Result<u64> {
        Ok(0)
    }
}

/// Tells what its sink tells.
impl Write for Empty {
    ghost told = { λ e. sink_told e.sink };

    ghost takes_all = { λ _. ⊤ };

    ghost may = { λ old call new. SinkMay old.sink call new.sink };

    fn write(&mut self, buf: &[u8]) -> Result<usize> {
        self.sink.write(buf)
    }

    fn flush(&mut self) -> Result<()> {
        self.sink.flush()
    }
}

impl fmt::Debug for Empty {
    fn fmt<W: fmt::Write>(&self, f: &mut fmt::Formatter<W>) -> fmt::Result {
        f.write_str("Empty")
    }
}

/// A reader that gives one byte a number of times, and is then at its end. Made by
/// [`repeat`](crate::makers::repeat); follows `std::io::Repeat`, which has no end.
#[derive(Debug, Drop)]
pub struct Repeat {
    byte: u8,
    left: u64,
}

impl Repeat {
    pub(crate) fn new(byte: u8, len: u64) -> Repeat
        ensures { repeat_left result ≡ replicate len byte }
    {
        Repeat { byte, left: len }
    }
}

impl Stored for Repeat {}

/// Tells the bytes that are left.
impl Read for Repeat {
    ghost turns = { λ r. length (repeat_left r) };

    ghost events = { λ r. Some (events_of (repeat_left r)) };

    ghost may = { GivesLeft repeat_left };

    fn read(&mut self, buf: &mut [u8]) -> Result<usize>
        ensures law { ReadLaw ⟦<Self as Read>⟧ self.old buf.old result buf.new self.new }

        // It gives as many of the bytes that are left as fit.
        ensures gives { GivesLeft repeat_left self.old (Gave (length buf.new) (gave_front result buf.new)) self.new }
    {
        let n = (buf.len() as u64).min(self.left) as usize;
        buf[..n].fill(self.byte);
        self.left -= n as u64;
        Ok(n)
    }
}

/// A writer that takes every byte and never fails. It keeps none of them; only contracts see its
/// bytes. Made by [`sink`](crate::makers::sink); follows `std::io::Sink`.
#[derive(Drop)]
pub struct Sink {
    taken: GhostBytes,
}

impl Sink {
    /// Makes a sink that has taken nothing yet. [`sink`](crate::makers::sink) does the same.
    pub fn new() -> Sink
        ensures { sink_taken result ≡ [] }
    {
        Sink {
            taken: GhostBytes::new(),
        }
    }
}

impl Default for Sink {
    ghost is_default = { λ s. sink_taken s ≡ [] };

    fn default() -> Sink {
        Sink::new()
    }
}

/// Tells that each byte is out as soon as it is written, and that no mishap is to come.
impl Write for Sink {
    ghost told = { sink_told };

    ghost takes_all = { λ _. ⊤ };

    ghost may = { SinkMay };

    fn write(&mut self, buf: &[u8]) -> Result<usize> {
        self.taken.add(buf);
        Ok(buf.len())
    }

    fn flush(&mut self) -> Result<()> {
        Ok(())
    }
}

impl fmt::Debug for Sink {
    fn fmt<W: fmt::Write>(&self, f: &mut fmt::Formatter<W>) -> fmt::Result {
        f.write_str("Sink")
    }
}
