// References to objects of `Write`, `Read` and `Seek` as the streams behind them.
ghost use Rattle.no_std_io2_base.specs.inner.Calls.{LentMay};

use super::dyn_read_to_end::{ReadObject, drain};
use crate::error::Result;
use crate::traits::{Read, Seek, SeekFrom, Stored, Write};
use std::alloc::Allocator;

/// Passes each call on to the writer behind the reference.
impl Write for &mut dyn Write {
    ghost told = { λ w. (Write-dyn w.now).told w.now.1 };

    ghost takes_all = { λ w. (Write-dyn w.now).takes_all w.now.1 };

    ghost may = { λ w call new. LentMay w (Write-dyn w.now).may call new };

    fn write(&mut self, buf: &[u8]) -> Result<usize> {
        (**self).write(buf)
    }

    fn flush(&mut self) -> Result<()> {
        (**self).flush()
    }

    fn write_all(&mut self, buf: &[u8]) -> Result<()> {
        (**self).write_all(buf)
    }

    fn write_rest(&mut self, rest: &mut &[u8]) -> Result<()> {
        (**self).write_rest(rest)
    }
}

impl Stored for &mut dyn Read {
    ghost store = { λ r. (Read-dyn r.now).Stored.store r.now.1 };
}

/// Passes each call on to the reader behind the reference.
impl Read for &mut dyn Read {
    ghost turns = { λ r. (Read-dyn r.now).Read.turns r.now.1 };

    ghost events = { λ r. (Read-dyn r.now).Read.events r.now.1 };

    ghost may = { λ r call new. LentMay r (Read-dyn r.now).Read.may call new };

    ghost held = { λ r. (Read-dyn r.now).Read.held r.now.1 };

    fn read(&mut self, buf: &mut [u8]) -> Result<usize> {
        (**self).read(buf)
    }

    fn read_exact(&mut self, buf: &mut [u8]) -> Result<()> {
        (**self).read_exact(buf)
    }

    fn read_full(&mut self, buf: &mut [u8], filled: &mut usize) -> Result<()> {
        (**self).read_full(buf, filled)
    }

    fn read_to_end<A: Allocator>(&mut self, buf: &mut Vec<u8, A>) -> Result<usize> {
        drain(self, buf)
    }
}

impl ReadObject for &mut dyn Read {
    ghost reader = { record {
      store = λ r. (Read-dyn r.now).Stored.store r.now.1;
      turns = λ r. (Read-dyn r.now).Read.turns r.now.1;
      events = λ r. (Read-dyn r.now).Read.events r.now.1;
      may = λ r call new. LentMay r (Read-dyn r.now).Read.may call new;
      held = λ r. (Read-dyn r.now).Read.held r.now.1;
    } };

    fn read_object(&mut self, buf: &mut [u8]) -> Result<usize> {
        (**self).read(buf)
    }
}

impl Stored for &mut dyn Seek {
    ghost store = { λ s. (Seek-dyn s.now).Stored.store s.now.1 };
}

/// Passes each call on to the stream behind the reference.
impl Seek for &mut dyn Seek {
    fn seek(&mut self, pos: SeekFrom) -> Result<u64> {
        (**self).seek(pos)
    }

    fn stream_position(&mut self) -> Result<u64> {
        (**self).stream_position()
    }

    fn rewind(&mut self) -> Result<()> {
        (**self).rewind()
    }

    fn seek_relative(&mut self, offset: i64) -> Result<()> {
        (**self).seek_relative(offset)
    }

    fn stream_len(&mut self) -> Result<u64> {
        (**self).stream_len()
    }

    ghost may = { λ s call new. LentMay s (Seek-dyn s.now).Seek.may call new };

    ghost sound = { λ s. (Seek-dyn s.now).Seek.sound s.now.1 };
}
