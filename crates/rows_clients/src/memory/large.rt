// Long pieces, long writes and wide gaps.
use super::Outcome;
use examples::{read_long_message, read_message};
use no_std_io2::io::{BufRead, BufReader, Cursor, ErrorKind, Read, Result, Stored, Write};
use std::alloc::Global;
use std::collections::VecDeque;

/// Returns the first `len` bytes of a text.
pub fn front(text: &[u8], len: usize) -> &[u8] {
    &text[..len.min(text.len())]
}

// A reader with the trait's bodies, which does not know how many bytes are to come.
#[derive(Drop)]
struct Unknowing<'a> {
    bytes: &'a [u8],
    // The number of turns that are left.
    turns: u64,
}

fn of_unknown_len(text: &[u8], len: usize) -> Unknowing<'_> {
    Unknowing {
        bytes: front(text, len),
        turns: u64::MAX,
    }
}

impl Stored for Unknowing<'_> {}

impl Read for Unknowing<'_> {
    ghost turns = { λ r. r.turns };

    fn read(&mut self, buf: &mut [u8]) -> Result<usize> {
        if buf.is_empty() || self.turns == 0 {
            return Ok(0);
        }
        self.turns -= 1;
        self.bytes.read(buf)
    }
}

/// Makes a `read_to_end` of `len` bytes of a slice, which knows how many are to come.
pub fn by_known(alloc: Global, text: &[u8], len: usize) -> Outcome {
    let mut all = Vec::new(alloc);
    let mut r = front(text, len);
    Outcome::of(&r.read_to_end(&mut all)).if_full(all.len(), len)
}

/// Makes a `read_to_end` of `len` bytes of a reader with the trait's body, which does not know how
/// many are to come.
pub fn by_unknown(alloc: Global, text: &[u8], len: usize) -> Outcome {
    let mut all = Vec::new(alloc);
    Outcome::of(&of_unknown_len(text, len).read_to_end(&mut all)).if_full(all.len(), len)
}

/// Makes a `read_to_string` of `len` bytes.
pub fn by_read_to_string(alloc: Global, text: &[u8], len: usize) -> Outcome {
    let mut all = String::new(alloc);
    let mut r = of_unknown_len(text, len);
    Outcome::of(&r.read_to_string(alloc, &mut all)).if_full(all.len(), len)
}

/// Makes a `read_to_string` of `len` bytes behind a text, whose string has room for them and 32 more.
pub fn by_read_behind(alloc: Global, text: &[u8], len: usize) -> Outcome {
    let Ok(mut all) = String::with_capacity(alloc, len.saturating_add(34)) else {
        return Outcome::Refused;
    };
    if all.push_str("ab").is_err() {
        return Outcome::OtherBytes;
    }
    let mut r = of_unknown_len(text, len);
    Outcome::of(&r.read_to_string(alloc, &mut all)).if_full(all.len(), len.saturating_add(2))
}

/// Makes a `read_until` of `len` bytes through a buffer.
pub fn by_read_until(alloc: Global, text: &[u8], len: usize) -> Outcome {
    let mut piece = Vec::new(alloc);
    let mut r = BufReader::<&[u8], 4096>::new(front(text, len));
    Outcome::of(&r.read_until(b'\n', &mut piece)).if_full(piece.len(), len)
}

/// Makes a `read_line` of `len` bytes through a buffer.
pub fn by_read_line(alloc: Global, text: &[u8], len: usize) -> Outcome {
    let mut line = String::new(alloc);
    let mut r = BufReader::<&[u8], 4096>::new(front(text, len));
    Outcome::of(&r.read_line(alloc, &mut line)).if_full(line.len(), len)
}

/// Takes a piece of `len` bytes from a `split`.
pub fn by_split(alloc: Global, text: &[u8], len: usize) -> Outcome {
    let mut pieces = BufReader::<&[u8], 4096>::new(front(text, len)).split(alloc, b'\n');
    match pieces.next() {
        Some(Ok(piece)) => Outcome::Whole.if_right(piece.len() == len),
        Some(Err(e)) => Outcome::of_error(&e),
        None => Outcome::NoItem,
    }
}

/// Takes a line of `len` bytes from a `lines`.
pub fn by_lines(alloc: Global, text: &[u8], len: usize) -> Outcome {
    let mut lines = BufReader::<&[u8], 4096>::new(front(text, len)).lines(alloc);
    match lines.next() {
        Some(Ok(line)) => Outcome::Whole.if_right(line.len() == len),
        Some(Err(e)) => Outcome::of_error(&e),
        None => Outcome::NoItem,
    }
}

/// Writes a byte after a gap of `len` bytes.
pub fn by_gap(alloc: Global, len: usize) -> Outcome {
    let mut to = Cursor::new(Vec::new(alloc));
    to.set_position(len as u64);
    let first = Outcome::of(&to.write_all(b"x"));
    if first != Outcome::Refused {
        return first.if_full(to.get_ref().len(), len.saturating_add(1));
    }
    let is_same = to.get_ref().is_empty() && to.position() == len as u64;
    first
        .if_right(is_same)
        .and(Outcome::of(&to.write_all(b"x")))
}

/// Writes `len` bytes to a new queue, which stays empty if it is refused.
pub fn by_queue(alloc: Global, text: &[u8], len: usize) -> Outcome {
    let mut to = VecDeque::new(alloc);
    let first = Outcome::of(&to.write(front(text, len)));
    if first != Outcome::Refused {
        return first.if_full(to.len(), len);
    }
    first
        .if_right(to.is_empty())
        .and(Outcome::of(&to.write(front(text, len))))
}

/// Writes `len` bytes to a new vector, one in each call.
pub fn by_writes(alloc: Global, text: &[u8], len: usize) -> Outcome {
    let mut to = Vec::new(alloc);
    'bytes: for byte in front(text, len) {
        if let Err(e) = to.write_all(&[*byte]) {
            return Outcome::of_error(&e);
        }
    }
    Outcome::Whole.if_right(to.as_slice() == front(text, len))
}

/// Reads a message of `len` bytes.
pub fn by_read_message(alloc: Global, text: &[u8], len: usize) -> Outcome {
    let Ok(count) = u16::try_from(len) else {
        return Outcome::NoCall;
    };
    let mut r = Cursor::new(count.to_be_bytes()).chain(front(text, len));
    match read_message(alloc, &mut r) {
        Ok(payload) => Outcome::Whole.if_right(payload.as_slice() == front(text, len)),
        Err(e) => Outcome::of_error(&e),
    }
}

/// Reads a long message of `len` bytes.
pub fn by_read_long_message(alloc: Global, text: &[u8], len: usize) -> Outcome {
    let Ok(count) = u32::try_from(len) else {
        return Outcome::NoCall;
    };
    let mut r = Cursor::new(count.to_be_bytes()).chain(front(text, len));
    match read_long_message(alloc, &mut r) {
        Ok(payload) => Outcome::Whole.if_right(payload.as_slice() == front(text, len)),
        Err(e) => Outcome::of_error(&e),
    }
}

/// Reads a long message that says a length of nearly 4 GiB, and of which `len` bytes come: it is too short.
pub fn by_cut_message(alloc: Global, text: &[u8], len: usize) -> Outcome {
    let mut r = Cursor::new(u32::MAX.to_be_bytes()).chain(front(text, len));
    match read_long_message(alloc, &mut r) {
        Ok(_) => Outcome::OtherBytes,
        Err(e) if e.kind() == ErrorKind::UnexpectedEof => Outcome::Whole,
        Err(e) => Outcome::of_error(&e),
    }
}
