// A `&mut T` as the stream behind it.
ghost use Rattle.no_std_io2_base.specs.Calls.{PartMay};

use crate::error::Result;
use crate::traits::{BufRead, Read, Seek, SeekFrom, Stored, Write};
use std::alloc::{Allocator, Global};

/// Passes each call on to the writer behind the reference.
impl<W: Write> Write for &mut W {
    ghost told = { λ w. W.told w.now };

    ghost takes_all = { λ w. W.takes_all w.now };

    ghost may = { PartMay W.may (λ r. r.now) (λ r w. record r { now = w }) };

    fn write(&mut self, buf: &[u8]) -> Result<usize> {
        Write::write(&mut **self, buf)
    }

    fn flush(&mut self) -> Result<()> {
        Write::flush(&mut **self)
    }

    #[tactic(auto, using(crate::proofs::Forwards::passes_on))]
    fn write_all(&mut self, buf: &[u8]) -> Result<()> {
        Write::write_all(&mut **self, buf)
    }

    #[tactic(auto, using(crate::proofs::Forwards::passes_on))]
    fn write_rest(&mut self, rest: &mut &[u8]) -> Result<()> {
        Write::write_rest(&mut **self, rest)
    }
}

impl<T: Stored> Stored for &mut T {
    ghost store = { λ r. T.store r.now };
}

/// Passes each call on to the reader behind the reference.
impl<T: Read> Read for &mut T {
    ghost turns = { λ r. T.turns r.now };

    ghost events = { λ r. T.events r.now };

    ghost may = { PartMay T.may (λ r. r.now) (λ r t. record r { now = t }) };

    ghost held = { λ r. T.held r.now };

    fn read(&mut self, buf: &mut [u8]) -> Result<usize> {
        Read::read(&mut **self, buf)
    }

    #[tactic(auto, using(crate::proofs::Forwards::passes_on))]
    fn read_exact(&mut self, buf: &mut [u8]) -> Result<()> {
        Read::read_exact(&mut **self, buf)
    }

    #[tactic(auto, using(crate::proofs::Forwards::passes_on))]
    fn read_full(&mut self, buf: &mut [u8], filled: &mut usize) -> Result<()> {
        Read::read_full(&mut **self, buf, filled)
    }

    #[tactic(auto, using(crate::proofs::Forwards::passes_on))]
    fn read_to_end<A: Allocator>(&mut self, buf: &mut Vec<u8, A>) -> Result<usize> {
        Read::read_to_end(&mut **self, buf)
    }
}

impl<T: BufRead> BufRead for &mut T {
    fn fill_buf(&mut self) -> Result<&[u8]> {
        BufRead::fill_buf(&mut **self)
    }

    fn consume(&mut self, amount: usize) {
        BufRead::consume(&mut **self, amount)
    }

    #[tactic(auto, using(crate::proofs::Forwards::passes_on))]
    fn read_until<A: Allocator>(&mut self, delim: u8, buf: &mut Vec<u8, A>) -> Result<usize> {
        BufRead::read_until(&mut **self, delim, buf)
    }

    #[tactic(auto, using(crate::proofs::Forwards::passes_on))]
    fn read_line(&mut self, alloc: Global, buf: &mut String) -> Result<usize> {
        BufRead::read_line(&mut **self, alloc, buf)
    }
}

/// Passes each call on to the stream behind the reference.
impl<T: Seek> Seek for &mut T {
    fn seek(&mut self, pos: SeekFrom) -> Result<u64> {
        Seek::seek(&mut **self, pos)
    }

    fn stream_position(&mut self) -> Result<u64> {
        Seek::stream_position(&mut **self)
    }

    fn rewind(&mut self) -> Result<()> {
        Seek::rewind(&mut **self)
    }

    fn seek_relative(&mut self, offset: i64) -> Result<()> {
        Seek::seek_relative(&mut **self, offset)
    }

    fn stream_len(&mut self) -> Result<u64> {
        Seek::stream_len(&mut **self)
    }

    ghost may = { PartMay T.may (λ r. r.now) (λ r t. record r { now = t }) };

    ghost sound = { λ r. T.sound r.now };
}
