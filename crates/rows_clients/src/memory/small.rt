// Reads of a short text, and runs: calls with many small allocations.
use super::Outcome;
use super::large::front;
use io_bench::{Op, Reply, Tally, joined, run_closed, run_lines, run_split, run_writes};
use no_std_io2::io::{BufRead, BufReader, BufWriter, Cursor, Read, Result, Sink, Write};
use std::alloc::Global;

const TEXT: &str = "a line that grows\r\nend";

// The lines of the text, as `split` and `lines` yield them.
const PIECES: [&str; 2] = ["a line that grows\r", "end"];

const LINES: [&str; 2] = ["a line that grows", "end"];

type Reader = BufReader<Cursor<&'static [u8]>, 4>;

fn reader(text: &'static [u8]) -> Reader {
    BufReader::new(Cursor::new(text))
}

// After a failed allocation the string is unchanged, and the rest of the reader is a suffix of the
// whole text.
fn after_refusal<R: Read>(alloc: Global, r: &mut R, text: &str, len: usize) -> Outcome {
    if text.len() != len || !TEXT.starts_with(text) {
        return Outcome::OtherBytes;
    }
    let mut rest = Vec::new(alloc);
    match r.read_to_end(&mut rest) {
        Ok(_) => Outcome::Refused.if_right(TEXT.as_bytes().ends_with(&rest)),
        Err(e) => Outcome::of_error(&e),
    }
}

fn by_read_line<R: BufRead>(alloc: Global, r: &mut R) -> Outcome {
    let mut text = String::new(alloc);
    'lines: for _ in 0..LINES.len() {
        let len = text.len();
        if let Err(e) = r.read_line(alloc, &mut text) {
            return match Outcome::of_error(&e) {
                Outcome::Refused => after_refusal(alloc, r, text.as_str(), len),
                wrong => wrong,
            };
        }
    }
    Outcome::Whole.if_right(text.as_str() == TEXT)
}

/// Makes a `read_line` of a buffer, of a buffer with a limit, and of a cursor.
pub fn by_read_lines(alloc: Global) -> Outcome {
    by_read_line(alloc, &mut reader(TEXT.as_bytes()))
        .and(by_read_line(alloc, &mut reader(TEXT.as_bytes()).take(99)))
        .and(by_read_line(alloc, &mut Cursor::new(TEXT.as_bytes())))
}

/// Takes the pieces between newlines.
pub fn by_split(alloc: Global) -> Outcome {
    let mut pieces = reader(TEXT.as_bytes()).split(alloc, b'\n');
    'pieces: for want in PIECES {
        match pieces.next() {
            Some(Ok(piece)) if piece.as_slice() == want.as_bytes() => {}
            Some(Err(e)) if pieces.next().is_none() => return Outcome::of_error(&e),
            _ => return Outcome::OtherBytes,
        }
    }
    Outcome::Whole.if_right(pieces.next().is_none())
}

/// Takes the lines.
pub fn by_lines(alloc: Global) -> Outcome {
    let mut lines = reader(TEXT.as_bytes()).lines(alloc);
    'lines: for want in LINES {
        match lines.next() {
            Some(Ok(line)) if line.as_str() == want => {}
            Some(Err(e)) if lines.next().is_none() => return Outcome::of_error(&e),
            _ => return Outcome::OtherBytes,
        }
    }
    Outcome::Whole.if_right(lines.next().is_none())
}

/// Joins the bytes that a run accepted.
pub fn by_joined(alloc: Global) -> Outcome {
    let ops = [Op::Write(b"abc"), Op::WriteAll(b"de"), Op::Flush];
    let replies = [Reply::Took(2), Reply::Done, Reply::Done];
    match joined(alloc, &ops, &replies) {
        Ok(Some(bytes)) => Outcome::Whole.if_right(bytes.as_slice() == b"abde".as_slice()),
        Ok(None) => Outcome::NoItem,
        Err(e) => Outcome::of_error(&e),
    }
}

const OPS: [Op<'static>; 3] = [Op::Write(b"ab"), Op::WriteAll(b"123456789"), Op::Flush];

/// Makes a run of writes on a buffer that holds `held`. A refused run makes no call.
pub fn by_run_writes(alloc: Global) -> Outcome {
    let mut room = [0u8; 16];
    let mut replies = Vec::new(alloc);
    let mut w = BufWriter::<Cursor<&mut [u8]>, 8>::new(Cursor::new(&mut room[..]));
    if w.write_all(b"held").is_err() {
        return Outcome::OtherError;
    }
    let ran = Outcome::of(&run_writes(&mut w, &OPS, &mut replies));
    drop(w);
    if ran == Outcome::Refused {
        return ran.if_right(replies.is_empty() && room == *b"held\0\0\0\0\0\0\0\0\0\0\0\0");
    }
    ran.if_full(replies.len(), 3)
        .if_right(room == *b"heldab123456789\0")
}

/// Makes a run of writes on a new buffer over a sink whose writes are counted, and closes it. A refused run makes
/// no call.
pub fn by_run_closed(alloc: Global) -> Outcome {
    let mut replies = Vec::new(alloc);
    match run_closed::<Sink, 8>(Tally::new(Sink::new()), &OPS, &mut replies) {
        Ok(tally) => Outcome::Whole.if_right(tally.writes() == 2 && replies.len() == 3),
        Err(e) => Outcome::of_error(&e).if_right(replies.is_empty()),
    }
}

// The text of whole runs of `split` and `lines` over a borrowed reader. After a failed allocation, the items and the rest
// of the reader are this text, except for the first bytes of the item that was being read.
const LONG_TEXT: &[u8] = b"one\ntwo\nthree\nfour\nfive and more\nsix\nseven\neight\nnine\nten";

// Returns what follows a front, if the bytes begin with it.
fn behind<'a>(bytes: &'a [u8], front: &[u8]) -> Option<&'a [u8]> {
    if bytes.starts_with(front) {
        bytes.get(front.len()..)
    } else {
        None
    }
}

// Returns what follows an item and its newline.
fn behind_item<'a>(text: &'a [u8], item: &[u8]) -> Option<&'a [u8]> {
    let rest = behind(text, item)?;
    Some(behind(rest, b"\n").unwrap_or(rest))
}

// Judges a run after whose items this text is left.
fn judge<R: Read>(alloc: Global, ended: &Result<()>, text: &[u8], r: &mut R) -> Outcome {
    let mut left = Vec::new(alloc);
    if let Err(e) = r.read_to_end(&mut left) {
        return Outcome::of_error(&e);
    }
    let lost = front(text, text.len().saturating_sub(left.len()));
    let is_right = text.ends_with(&left) && !lost.contains(&b'\n');
    Outcome::of(ended).if_right(is_right).if_full(text.len(), 0)
}

fn gather_pieces<R: BufRead>(alloc: Global, r: &mut R) -> Outcome {
    let mut pieces = Vec::new(alloc);
    let ended = run_split(&mut r.by_ref().split(alloc, b'\n'), &mut pieces);
    let mut text = LONG_TEXT;
    'pieces: for piece in &pieces {
        match behind_item(text, piece) {
            Some(rest) => text = rest,
            None => return Outcome::OtherBytes,
        }
    }
    judge(alloc, &ended, text, r)
}

fn gather_lines<R: BufRead>(alloc: Global, r: &mut R) -> Outcome {
    let mut lines = Vec::new(alloc);
    let ended = run_lines(&mut r.by_ref().lines(alloc), &mut lines);
    let mut text = LONG_TEXT;
    'lines: for line in &lines {
        match behind_item(text, line.as_bytes()) {
            Some(rest) => text = rest,
            None => return Outcome::OtherBytes,
        }
    }
    judge(alloc, &ended, text, r)
}

/// Takes all pieces.
pub fn by_run_split(alloc: Global) -> Outcome {
    gather_pieces(alloc, &mut reader(LONG_TEXT))
}

/// Takes all lines.
pub fn by_run_lines(alloc: Global) -> Outcome {
    gather_lines(alloc, &mut reader(LONG_TEXT))
}
