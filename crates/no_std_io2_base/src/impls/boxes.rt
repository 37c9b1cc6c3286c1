// A `Box<T>` as the stream in it.
use crate::error::Result;
use crate::traits::{BufRead, Read, Seek, SeekFrom, Stored, Write};
use std::alloc::{Allocator, Global};

/// Passes each call on to the writer in the box.
impl<W: Write, A: Allocator> Write for Box<W, A> {
    ghost told = { λ b. W.told b.value };

    ghost takes_all = { λ b. W.takes_all b.value };

    ghost may = { λ old call new. W.may old.value call new.value };

    fn write(&mut self, buf: &[u8]) -> Result<usize> {
        self.as_mut().write(buf)
    }

    fn flush(&mut self) -> Result<()> {
        self.as_mut().flush()
    }

    fn write_all(&mut self, buf: &[u8]) -> Result<()> {
        self.as_mut().write_all(buf)
    }

    fn write_rest(&mut self, rest: &mut &[u8]) -> Result<()> {
        self.as_mut().write_rest(rest)
    }
}

impl<T: Stored, A: Allocator> Stored for Box<T, A> {
    ghost store = { λ b. T.store b.value };
}

/// Passes each call on to the reader in the box.
impl<T: Read, A: Allocator> Read for Box<T, A> {
    ghost turns = { λ b. T.turns b.value };

    ghost events = { λ b. T.events b.value };

    ghost may = { λ old call new. T.may old.value call new.value };

    ghost held = { λ b. T.held b.value };

    fn read(&mut self, buf: &mut [u8]) -> Result<usize> {
        self.as_mut().read(buf)
    }

    fn read_exact(&mut self, buf: &mut [u8]) -> Result<()> {
        self.as_mut().read_exact(buf)
    }

    fn read_full(&mut self, buf: &mut [u8], filled: &mut usize) -> Result<()> {
        self.as_mut().read_full(buf, filled)
    }

    fn read_to_end<B: Allocator>(&mut self, buf: &mut Vec<u8, B>) -> Result<usize> {
        Read::read_to_end(&mut **self, buf)
    }
}

impl<T: BufRead, A: Allocator> BufRead for Box<T, A> {
    fn fill_buf(&mut self) -> Result<&[u8]> {
        self.as_mut().fill_buf()
    }

    fn consume(&mut self, amount: usize) {
        self.as_mut().consume(amount)
    }

    fn read_until<B: Allocator>(&mut self, delim: u8, buf: &mut Vec<u8, B>) -> Result<usize> {
        self.as_mut().read_until(delim, buf)
    }

    fn read_line(&mut self, alloc: Global, buf: &mut String) -> Result<usize> {
        self.as_mut().read_line(alloc, buf)
    }
}

/// Passes each call on to the stream in the box.
impl<T: Seek, A: Allocator> Seek for Box<T, A> {
    fn seek(&mut self, pos: SeekFrom) -> Result<u64> {
        self.as_mut().seek(pos)
    }

    fn stream_position(&mut self) -> Result<u64> {
        self.as_mut().stream_position()
    }

    fn rewind(&mut self) -> Result<()> {
        self.as_mut().rewind()
    }

    fn seek_relative(&mut self, offset: i64) -> Result<()> {
        self.as_mut().seek_relative(offset)
    }

    fn stream_len(&mut self) -> Result<u64> {
        self.as_mut().stream_len()
    }

    ghost may = { λ old call new. T.may old.value call new.value };

    ghost sound = { λ b. T.sound b.value };
}
