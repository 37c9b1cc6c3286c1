// The results that a device is to return, the bytes that it took, and the calls that reached it.
use super::line::{Line, Played, Unplayed};
use super::recorder::ReaderName;
use super::script::{Answer, error_of, parse_answers};
use no_std_io2::io::{Error, ErrorKind, Result, SeekFrom};
use std::alloc::Global;
use std::cell::RefCell;
use std::mem;
use std::rc::Rc;

/// A journal that a device shares with others, and with the columns of its rows.
pub type Notes = Rc<RefCell<Journal>>;

/// The journal of a device, or of several that share it.
#[derive(Drop)]
pub struct Journal {
    // The results that are left, the next one last.
    answers: Vec<Answer>,
    // The rest of the bytes that a result gives.
    pending: Vec<u8>,
    out: Vec<u8>,
    /// The calls since they were last printed.
    pub calls: Line,
    alloc: Global,
}

fn misfit() -> Error {
    Error::other("no answer to this call")
}

impl Journal {
    fn next_answer(&mut self) -> Answer {
        self.answers.pop().unwrap_or(Answer::Plain)
    }

    /// Returns the result of a `write`, and notes the call.
    pub fn write(&mut self, buf: &[u8]) -> Result<usize> {
        let answer = match self.next_answer() {
            Answer::Plain => self.take(buf, buf.len()),
            Answer::Take(most) => self.take(buf, most),
            Answer::Fail(kind, text) => Err(error_of(kind, text)),
            _ => Err(misfit()),
        };
        self.calls.item("write ");
        self.calls.bytes(buf);
        self.calls.word(" = ");
        self.calls.answer(&answer);
        answer
    }

    fn take(&mut self, buf: &[u8], most: usize) -> Result<usize> {
        let n = most.min(buf.len());
        match self.out.extend_from_slice(&buf[..n]) {
            Ok(()) => Ok(n),
            Err(_) => Err(Error::from(ErrorKind::OutOfMemory)),
        }
    }

    /// Returns the result of a `flush`, and notes the call.
    pub fn flush(&mut self) -> Result<()> {
        let answer = match self.next_answer() {
            Answer::Plain | Answer::Take(_) => Ok(()),
            Answer::Fail(kind, text) => Err(error_of(kind, text)),
            _ => Err(misfit()),
        };
        self.calls.item("flush = ");
        self.calls.done(&answer);
        answer
    }

    // Returns the bytes that a read into this much room gives. Bytes that do not fit come next.
    fn give(&mut self, bytes: &[u8], room: usize) -> Result<Vec<u8>> {
        let n = room.min(bytes.len());
        let given = Vec::from_slice(self.alloc, &bytes[..n])?;
        self.pending = Vec::from_slice(self.alloc, &bytes[n..])?;
        Ok(given)
    }

    // Begins to note a call of one of the readers, with a number.
    fn begin_read(&mut self, call: &str, name: ReaderName, number: usize) {
        self.calls.item(call);
        self.calls.word(match name {
            ReaderName::Only => " ",
            ReaderName::Second => " second ",
        });
        self.calls.value(number);
    }

    fn next_bytes(&mut self, room: usize) -> Result<Vec<u8>> {
        if room == 0 {
            return Ok(Vec::new(self.alloc));
        }
        let bytes = if self.pending.is_empty() {
            match self.next_answer() {
                Answer::Plain => Vec::new(self.alloc),
                Answer::Give(bytes) => bytes,
                Answer::Fail(kind, text) => return Err(error_of(kind, text)),
                _ => return Err(misfit()),
            }
        } else {
            mem::replace(&mut self.pending, Vec::new(self.alloc))
        };
        self.give(&bytes, room)
    }

    /// Returns the result of a read into this much room, by a call of this name, and notes it. A
    /// read into no room gives nothing.
    pub fn read(&mut self, call: &str, name: ReaderName, room: usize) -> Result<Vec<u8>> {
        self.begin_read(call, name, room);
        let answer = self.next_bytes(room);
        self.calls.word(" = ");
        match &answer {
            Ok(bytes) => self.calls.bytes(bytes),
            Err(e) => self.calls.error(e),
        }
        answer
    }

    /// Notes that `amount` lent bytes were consumed.
    pub fn consume(&mut self, name: ReaderName, amount: usize) {
        self.begin_read("consume", name, amount);
    }

    fn note_seek(&mut self, from: &str, offset: i64) {
        self.calls.item("seek ");
        self.calls.word(from);
        self.calls.value(offset);
    }

    /// Returns the result of a seek, and notes the call.
    pub fn seek(&mut self, pos: SeekFrom) -> Result<u64> {
        let answer = match self.next_answer() {
            Answer::At(n) => Ok(n),
            Answer::Fail(kind, text) => Err(error_of(kind, text)),
            _ => Err(misfit()),
        };
        match pos {
            SeekFrom::Start(n) => {
                self.calls.item("seek start ");
                self.calls.value(n);
            }
            SeekFrom::End(n) => self.note_seek("end ", n),
            SeekFrom::Current(n) => self.note_seek("current ", n),
        }
        self.calls.word(" = ");
        self.calls.answer(&answer);
        answer
    }
}

/// Makes a journal whose device has these results. It fails if a word is no result, or if an
/// allocation fails.
pub fn new_journal(alloc: Global, words: &str) -> Played<Notes> {
    let journal = Journal {
        answers: parse_answers(alloc, words)?,
        pending: Vec::new(alloc),
        out: Vec::new(alloc),
        calls: Line::new(alloc),
        alloc,
    };
    Ok(Rc::new(alloc, RefCell::new(journal))?)
}

/// Prints a column with the bytes that the device took.
pub fn show_out(journal: &RefCell<Journal>, line: &mut Line) {
    match journal.try_borrow() {
        Ok(journal) => line.bytes_column(&journal.out),
        Err(_) => line.tell(Unplayed::NotReady),
    }
}

/// Prints a column with the calls that reached the device since the last such column.
pub fn show_calls(journal: &RefCell<Journal>, line: &mut Line) {
    let Ok(mut journal) = journal.try_borrow_mut() else {
        line.tell(Unplayed::NotReady);
        return;
    };
    line.column();
    line.text(journal.calls.as_str());
    if journal.calls.is_cut() {
        line.cut();
    }
    journal.calls.clear();
}

/// Sets the results of the device from here on.
pub fn expect(alloc: Global, journal: &RefCell<Journal>, words: &str) -> Played<()> {
    let answers = parse_answers(alloc, words)?;
    let Ok(mut journal) = journal.try_borrow_mut() else {
        return Err(Unplayed::NotReady);
    };
    journal.answers = answers;
    Ok(())
}
