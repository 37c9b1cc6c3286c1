// A stream that notes the name of each call that has a default body, such as `write_all`, and passes the call on.

ghost use Rattle.no_std_io2.specs.Calls.{PartMay};

use super::journal::{Journal, Notes};
use no_std_io2::io::{BufRead, Read, Result, Seek, SeekFrom, Stored, Write};
use std::alloc::{Allocator, Global};
use std::cell::RefCell;
use std::fmt;

/// A stream in front of another one, whose journal it shares. It notes its own call, such as `write_all abc` or
/// `read_exact 3`, before those that the other one notes. So rows show whether a call was passed on or made of
/// other calls.
#[derive(Drop)]
pub struct Noted<T> {
    inner: T,
    journal: Notes,
}

impl<T> Noted<T> {
    /// Puts it in front of a stream, with the stream's journal.
    pub fn new(inner: T, journal: Notes) -> Noted<T> {
        Noted { inner, journal }
    }
}

fn note<T: fmt::Display + Drop>(journal: &RefCell<Journal>, call: &str, value: T) {
    if let Ok(mut journal) = journal.try_borrow_mut() {
        journal.calls.item(call);
        journal.calls.value(value);
    }
}

fn note_bytes(journal: &RefCell<Journal>, call: &str, bytes: &[u8]) {
    if let Ok(mut journal) = journal.try_borrow_mut() {
        journal.calls.item(call);
        journal.calls.bytes(bytes);
    }
}

impl<W: Write> Write for Noted<W> {
    ghost told = { λ n. W.told n.inner };

    ghost takes_all = { λ n. W.takes_all n.inner };

    ghost may = { PartMay W.may (λ n. n.inner) (λ n s. record n { inner = s }) };

    fn write(&mut self, buf: &[u8]) -> Result<usize> {
        self.inner.write(buf)
    }

    fn flush(&mut self) -> Result<()> {
        self.inner.flush()
    }

    #[tactic(auto, using(no_std_io2::proofs::ObjectRules::passes_on))]
    fn write_all(&mut self, buf: &[u8]) -> Result<()> {
        note_bytes(&self.journal, "write_all ", buf);
        self.inner.write_all(buf)
    }

    #[tactic(auto, using(no_std_io2::proofs::ObjectRules::passes_on))]
    fn write_rest(&mut self, rest: &mut &[u8]) -> Result<()> {
        note_bytes(&self.journal, "write_rest ", rest);
        self.inner.write_rest(rest)
    }
}

impl<T: Stored> Stored for Noted<T> {
    ghost store = { λ n. T.store n.inner };
}

impl<T: Read> Read for Noted<T> {
    ghost turns = { λ n. T.turns n.inner };

    ghost events = { λ n. T.events n.inner };

    ghost may = { PartMay T.may (λ n. n.inner) (λ n s. record n { inner = s }) };

    ghost held = { λ n. T.held n.inner };

    fn read(&mut self, buf: &mut [u8]) -> Result<usize> {
        self.inner.read(buf)
    }

    #[tactic(auto, using(no_std_io2::proofs::ObjectRules::passes_on))]
    fn read_exact(&mut self, buf: &mut [u8]) -> Result<()> {
        note(&self.journal, "read_exact ", buf.len());
        self.inner.read_exact(buf)
    }

    #[tactic(auto, using(no_std_io2::proofs::ObjectRules::passes_on))]
    fn read_full(&mut self, buf: &mut [u8], filled: &mut usize) -> Result<()> {
        note(&self.journal, "read_full ", buf.len());
        self.inner.read_full(buf, filled)
    }

    #[tactic(auto, using(no_std_io2::proofs::ObjectRules::passes_on))]
    fn read_to_end<B: Allocator>(&mut self, buf: &mut Vec<u8, B>) -> Result<usize> {
        note(&self.journal, "read_to_end", "");
        self.inner.read_to_end(buf)
    }
}

impl<T: BufRead> BufRead for Noted<T> {
    fn fill_buf(&mut self) -> Result<&[u8]> {
        note(&self.journal, "fill_buf", "");
        self.inner.fill_buf()
    }

    fn consume(&mut self, amount: usize) {
        self.inner.consume(amount);
    }

    fn read_until<B: Allocator>(&mut self, delim: u8, buf: &mut Vec<u8, B>) -> Result<usize> {
        note_bytes(&self.journal, "read_until ", &[delim]);
        self.inner.read_until(delim, buf)
    }

    fn read_line(&mut self, alloc: Global, buf: &mut String) -> Result<usize> {
        note(&self.journal, "read_line", "");
        self.inner.read_line(alloc, buf)
    }
}

impl<T: Seek> Seek for Noted<T> {
    fn seek(&mut self, pos: SeekFrom) -> Result<u64> {
        self.inner.seek(pos)
    }

    fn stream_position(&mut self) -> Result<u64> {
        note(&self.journal, "stream_position", "");
        self.inner.stream_position()
    }

    fn rewind(&mut self) -> Result<()> {
        note(&self.journal, "rewind", "");
        self.inner.rewind()
    }

    fn stream_len(&mut self) -> Result<u64> {
        note(&self.journal, "stream_len", "");
        self.inner.stream_len()
    }

    fn seek_relative(&mut self, offset: i64) -> Result<()> {
        note(&self.journal, "seek_relative ", offset);
        self.inner.seek_relative(offset)
    }

    ghost may = { λ old call new. T.may old.inner call new.inner };

    ghost sound = { λ n. T.sound n.inner };
}
