// A device that notes each call that reaches it, and returns the results of its script: a writer, a reader, a
// `BufRead` and a seeker.
ghost use Rattle.std.specs.Prelude.{[], ◌≡◌, ◌≤◌, ◌+◌, drop, length, vec_len};
ghost use Rattle.no_std_io2.specs.Errors.{IsFault};

use super::journal::Notes;
use no_std_io2::ghost_bytes::GhostBytes;
use no_std_io2::io::{BufRead, Error, Read, Result, Seek, SeekFrom, Stored, Write};
use std::alloc::Global;

// The number of its turns.
const TURNS: usize = 100_000;

// The most bytes that it lends at once.
const LENT: usize = 4;

// Bytes that are lent, and skipped piece by piece.
#[derive(Drop)]
struct LentRecorder {
    bytes: Vec<u8>,
    at: usize,
    ghost within: { at ≤ vec_len bytes },
}

impl LentRecorder {
    fn new(bytes: Vec<u8>) -> LentRecorder
        ensures { drop result.at result.bytes.items ≡ bytes.items }
    {
        LentRecorder { bytes, at: 0 }
    }

    // Returns the bytes that are left.
    fn rest(&self) -> &[u8]
        ensures { result.now ≡ drop self.now.at self.now.bytes.items }
    {
        &self.bytes[self.at..]
    }

    // Skips `amount` of them.
    fn pass(&mut self, amount: usize)
        requires { amount ≤ length (drop self.old.at self.old.bytes.items) }
        ensures { drop self.new.at self.new.bytes.items ≡ drop amount (drop self.old.at self.old.bytes.items) }
    {
        self.at += amount;
    }
}

#[derive(Drop)]
pub struct Recorder {
    journal: Notes,
    // Which of several readers it is.
    name: ReaderName,
    taken: GhostBytes,
    // The bytes that it lends.
    lent: LentRecorder,
    turns: usize,
}

// Which of several readers it is. A boxed object cannot contain a string of the program, so this stands for
// a name.
#[derive(Clone, Copy, PartialEq, Eq)]
pub enum ReaderName {
    Only,
    Second,
}

impl Recorder {
    pub fn new(alloc: Global, journal: Notes, name: ReaderName) -> Recorder {
        Recorder {
            journal,
            name,
            taken: GhostBytes::new(),
            lent: LentRecorder::new(Vec::new(alloc)),
            turns: TURNS,
        }
    }

    fn ask_write(&self, buf: &[u8]) -> Result<usize> {
        match self.journal.try_borrow_mut() {
            Ok(mut journal) => journal.write(buf),
            Err(_) => Err(in_use()),
        }
    }

    fn ask_flush(&self) -> Result<()> {
        match self.journal.try_borrow_mut() {
            Ok(mut journal) => journal.flush(),
            Err(_) => Err(in_use()),
        }
    }

    fn ask_read(&self, call: &str, room: usize) -> Result<Vec<u8>> {
        match self.journal.try_borrow_mut() {
            Ok(mut journal) => journal.read(call, self.name, room),
            Err(_) => Err(in_use()),
        }
    }
}

pub fn in_use() -> Error {
    Error::other("the journal is in use")
}

fn no_turns() -> Error
    ensures { IsFault result }
{
    Error::other("no turns left")
}

impl Write for Recorder {
    ghost use Rattle.std.specs.Prelude.{None};

    ghost told = { λ w. record { out = w.taken.bytes; held = []; mishaps = None; turns = w.turns } };

    ghost takes_all = { λ _. ⊥ };

    fn write(&mut self, buf: &[u8]) -> Result<usize> {
        if self.turns == 0 {
            return Err(no_turns());
        }
        self.turns -= 1;
        let n = self.ask_write(buf)?.min(buf.len());
        self.taken.add(&buf[..n]);
        Ok(n)
    }

    fn flush(&mut self) -> Result<()> {
        if self.turns == 0 {
            return Err(no_turns());
        }
        self.turns -= 1;
        self.ask_flush()
    }
}

impl Stored for Recorder {}

impl Read for Recorder {
    ghost turns = { λ r. r.turns + length (drop r.lent.at r.lent.bytes.items) };

    ghost held = { λ r. drop r.lent.at r.lent.bytes.items };

    fn read(&mut self, buf: &mut [u8]) -> Result<usize> {
        let held = self.lent.rest();
        if !held.is_empty() {
            let n = held.len().min(buf.len());
            buf[..n].copy_from_slice(&held[..n]);
            self.lent.pass(n);
            return Ok(n);
        }
        if self.turns == 0 {
            return Ok(0);
        }
        self.turns -= 1;
        let bytes = self.ask_read("read", buf.len())?;
        let n = bytes.len().min(buf.len());
        buf[..n].copy_from_slice(&bytes[..n]);
        Ok(n)
    }
}

impl BufRead for Recorder {
    fn fill_buf(&mut self) -> Result<&[u8]> {
        if self.lent.rest().is_empty() && self.turns > 0 {
            self.turns -= 1;
            let bytes = self.ask_read("fill", LENT)?;
            if bytes.len() <= self.turns {
                self.turns -= bytes.len();
                self.lent = LentRecorder::new(bytes);
            }
        }
        Ok(self.lent.rest())
    }

    fn consume(&mut self, amount: usize) {
        if let Ok(mut journal) = self.journal.try_borrow_mut() {
            journal.consume(self.name, amount);
        }
        self.lent.pass(amount);
    }
}

impl Seek for Recorder {
    fn seek(&mut self, pos: SeekFrom) -> Result<u64> {
        match self.journal.try_borrow_mut() {
            Ok(mut journal) => journal.seek(pos),
            Err(_) => Err(in_use()),
        }
    }
}
