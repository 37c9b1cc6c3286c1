// Boxed objects of `Write`, `Read` and `Seek` as the streams in them.
ghost use Rattle.no_std_io2_base.specs.inner.Calls.{BoxMay};

use super::dyn_read_to_end::{ReadObject, drain};
use crate::error::Result;
use crate::traits::{Read, Seek, SeekFrom, Stored, Write};
use std::alloc::Allocator;

/// Tells what the writer in the box tells.
impl<A: Allocator> Write for Box<dyn Write + Drop, A> {
    ghost told = { λ b. (Write-box b).told b.value };

    ghost takes_all = { λ b. (Write-box b).takes_all b.value };

    ghost may = { λ b call new. BoxMay b (Write-box b).may call new };

    fn write(&mut self, buf: &[u8]) -> Result<usize> {
        (**self).write(buf)
    }

    fn flush(&mut self) -> Result<()> {
        (**self).flush()
    }

    fn write_all(&mut self, buf: &[u8]) -> Result<()> {
        (**self).write_all(buf)
    }

    fn write_rest(&mut self, rest: &mut &[u8]) -> Result<()> {
        (**self).write_rest(rest)
    }
}

impl<A: Allocator> Stored for Box<dyn Seek + Drop, A> {
    ghost store = { λ b. (Seek-box b).Stored.store b.value };
}

impl<A: Allocator> Seek for Box<dyn Seek + Drop, A> {
    fn seek(&mut self, pos: SeekFrom) -> Result<u64> {
        (**self).seek(pos)
    }

    fn stream_position(&mut self) -> Result<u64> {
        (**self).stream_position()
    }

    fn rewind(&mut self) -> Result<()> {
        (**self).rewind()
    }

    fn seek_relative(&mut self, offset: i64) -> Result<()> {
        (**self).seek_relative(offset)
    }

    fn stream_len(&mut self) -> Result<u64> {
        (**self).stream_len()
    }

    ghost may = { λ b call new. BoxMay b (Seek-box b).Seek.may call new };

    ghost sound = { λ b. (Seek-box b).Seek.sound b.value };
}

impl<A: Allocator> Stored for Box<dyn Read + Drop, A> {
    ghost store = { λ b. (Read-box b).Stored.store b.value };
}

/// Passes each call on to the reader in the box.
impl<A: Allocator> Read for Box<dyn Read + Drop, A> {
    ghost turns = { λ b. (Read-box b).Read.turns b.value };

    ghost events = { λ b. (Read-box b).Read.events b.value };

    ghost may = { λ b call new. BoxMay b (Read-box b).Read.may call new };

    ghost held = { λ b. (Read-box b).Read.held b.value };

    fn read(&mut self, buf: &mut [u8]) -> Result<usize> {
        self.read_object(buf)
    }

    fn read_exact(&mut self, buf: &mut [u8]) -> Result<()> {
        (**self).read_exact(buf)
    }

    fn read_full(&mut self, buf: &mut [u8], filled: &mut usize) -> Result<()> {
        (**self).read_full(buf, filled)
    }

    fn read_to_end<B: Allocator>(&mut self, buf: &mut Vec<u8, B>) -> Result<usize> {
        drain(self, buf)
    }
}

impl<A: Allocator> ReadObject for Box<dyn Read + Drop, A> {
    ghost reader = { record {
      store = λ b. (Read-box b).Stored.store b.value;
      turns = λ b. (Read-box b).Read.turns b.value;
      events = λ b. (Read-box b).Read.events b.value;
      may = λ b call new. BoxMay b (Read-box b).Read.may call new;
      held = λ b. (Read-box b).Read.held b.value;
    } };

    fn read_object(&mut self, buf: &mut [u8]) -> Result<usize> {
        (**self).read(buf)
    }
}
