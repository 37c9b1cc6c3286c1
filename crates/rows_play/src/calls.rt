// The call of a row, and the calls that several kinds of streams have.
use super::line::{Line, Played, Unplayed, cut, unescape};
use no_std_io2::io::{Seek, SeekFrom, Write};
use std::alloc::Global;

/// A call of a row: a word, and the text after it.
#[derive(Drop)]
pub struct Call<'a> {
    /// The name of the call.
    pub word: &'a str,
    /// The text after the word.
    pub rest: &'a str,
    /// The bytes that this text stands for.
    pub bytes: Vec<u8>,
    /// Where the call may allocate.
    pub alloc: Global,
}

impl<'a> Call<'a> {
    /// Reads a call. It fails if an escape is bad, or if an allocation fails.
    pub fn parse(alloc: Global, call: &'a str) -> Played<Call<'a>> {
        let (word, rest) = cut(call, " ");
        Ok(Call {
            word,
            rest,
            bytes: unescape(alloc, rest)?,
            alloc,
        })
    }

    /// Returns the text after the word as a number. If it is no number, the row cannot be played.
    pub fn number(&self, line: &mut Line) -> usize {
        match self.rest.parse::<usize>() {
            Ok(n) => n,
            Err(_) => {
                line.tell(Unplayed::NoNumber);
                0
            }
        }
    }
}

/// Makes the call of a row on any writer, and prints its result. `print TEXT` writes the text as one piece by `write!`.
pub fn make_call<W: Write>(w: &mut W, call: &Call<'_>, line: &mut Line) {
    match call.word {
        "write" => line.answer(&w.write(&call.bytes)),
        "write_all" => line.done(&w.write_all(&call.bytes)),
        "flush" => line.done(&w.flush()),
        "write_rest" => call_write_rest(w, &call.bytes, line),
        "print" => call_print(w, &call.bytes, line),
        _ => line.tell(Unplayed::NoCall),
    }
}

// Prints the result of a `write_rest`, and the bytes that are left.
fn call_write_rest<W: Write>(w: &mut W, bytes: &[u8], line: &mut Line) {
    let mut rest = bytes;
    line.done(&w.write_rest(&mut rest));
    line.word(", left ");
    line.bytes(rest);
}

fn call_print<W: Write>(w: &mut W, bytes: &[u8], line: &mut Line) {
    match std::str::from_utf8(bytes) {
        Ok(text) => line.done(&write!(w, "{text}")),
        Err(_) => line.tell(Unplayed::NoWord),
    }
}

/// Returns the target of a row's seek, `FROM OFFSET`.
pub fn target(words: &str) -> Option<SeekFrom> {
    let (from, offset) = words.split_once(" ")?;
    if from == "start" {
        return Some(SeekFrom::Start(offset.parse::<u64>().ok()?));
    }
    let offset = offset.parse::<i64>().ok()?;
    match from {
        "end" => Some(SeekFrom::End(offset)),
        "current" => Some(SeekFrom::Current(offset)),
        _ => None,
    }
}

/// Makes the call of a row on any seeker, and prints its result. Returns `false` if the row makes no such call.
pub fn make_seek<T: Seek>(s: &mut T, call: &Call<'_>, line: &mut Line) -> bool {
    match call.word {
        "seek" => match target(call.rest) {
            Some(pos) => line.answer(&s.seek(pos)),
            None => line.tell(Unplayed::NoWord),
        },
        "stream_position" => line.answer(&s.stream_position()),
        "rewind" => line.done(&s.rewind()),
        "stream_len" => line.answer(&s.stream_len()),
        "seek_relative" => match call.rest.parse::<i64>() {
            Ok(offset) => line.done(&s.seek_relative(offset)),
            Err(_) => line.tell(Unplayed::NoNumber),
        },
        _ => return false,
    }
    true
}
