// The calls of rows on any reader. The columns of a call are its result and the bytes that it gave, with dots for bytes
// that were not written.
use super::calls::{Call, target};
use super::line::{Line, Unplayed, cut};
use no_std_io2::io::{BufRead, Read, Result, Seek, read_at_most, read_exact_at, skip};
use std::alloc::Global;

// Prints the result of a call, a length, and the bytes that it gave.
fn show_given(answer: &Result<usize>, given: &[u8], line: &mut Line) {
    line.answer(answer);
    line.bytes_column(given);
}

// Makes a buffer of `count` dots.
fn dots(alloc: Global, count: usize, line: &mut Line) -> Vec<u8> {
    let mut room = Vec::new(alloc);
    if room.resize(count, b'.').is_err() {
        line.cut();
    }
    room
}

// Reads into a buffer of dots.
fn call_fill<R: Read>(r: &mut R, call: &Call<'_>, line: &mut Line) {
    let mut room = dots(call.alloc, call.number(line), line);
    match call.word {
        "read" => line.answer(&r.read(&mut room)),
        "read_exact" => line.done(&r.read_exact(&mut room)),
        _ => {
            let mut filled = 0;
            line.done(&r.read_full(&mut room, &mut filled));
            line.word(", filled ");
            line.value(filled);
        }
    }
    line.bytes_column(&room);
}

// Reads all, and appends it to the vector.
fn call_read_to_end<R: Read>(r: &mut R, mut all: Vec<u8>, line: &mut Line) {
    show_given(&r.read_to_end(&mut all), &all, line);
}

// Reads at most `limit` bytes into a new vector.
fn call_read_at_most<R: Read>(alloc: Global, r: &mut R, limit: usize, line: &mut Line) {
    let mut all = Vec::new(alloc);
    show_given(&read_at_most(r, limit as u64, &mut all), &all, line);
}

fn call_fill_buf<R: BufRead>(r: &mut R, line: &mut Line) {
    match r.fill_buf() {
        Ok(lent) => {
            line.value(lent.len());
            line.bytes_column(lent);
        }
        Err(e) => {
            line.error(&e);
            line.bytes_column(b"");
        }
    }
}

// Consumes at most `most` of the lent bytes.
fn pass<R: BufRead>(r: &mut R, most: usize) -> Result<usize> {
    let amount = r.fill_buf()?.len().min(most);
    r.consume(amount);
    Ok(amount)
}

// Skips `count` bytes, and prints how many are still to be skipped.
fn call_skip<R: BufRead>(r: &mut R, count: usize, line: &mut Line) {
    let mut left = count as u64;
    line.done(&skip(r, &mut left));
    line.word(", left ");
    line.value(left);
    line.bytes_column(b"");
}

// Returns the delimiter of a row.
fn delim_of(call: &Call<'_>) -> u8 {
    call.bytes.first().copied().unwrap_or(b'\n')
}

fn call_read_until<R: BufRead>(r: &mut R, call: &Call<'_>, line: &mut Line) {
    let mut piece = Vec::new(call.alloc);
    show_given(&r.read_until(delim_of(call), &mut piece), &piece, line);
}

// Makes a string of the text of a row.
fn old_text(call: &Call<'_>, line: &mut Line) -> String {
    let mut text = String::new(call.alloc);
    match std::str::from_utf8(&call.bytes) {
        Ok(old) => {
            if text.push_str(old).is_err() {
                line.cut();
            }
        }
        Err(_) => line.tell(Unplayed::NoWord),
    }
    text
}

fn call_read_line<R: BufRead>(r: &mut R, call: &Call<'_>, line: &mut Line) {
    let mut text = old_text(call, line);
    show_given(&r.read_line(call.alloc, &mut text), text.as_bytes(), line);
}

fn call_read_to_string<R: Read>(r: &mut R, call: &Call<'_>, line: &mut Line) {
    let mut text = old_text(call, line);
    show_given(
        &r.read_to_string(call.alloc, &mut text),
        text.as_bytes(),
        line,
    );
}

/// Makes the call of a row on any reader, and prints its result: `read N`, `read_exact N`, `read_full N`,
/// `read_to_end OLD` and `read_to_string OLD`, which append to these bytes, `read_into N`, which reads all into a vector of
/// this capacity, `read_at_most N`, or `take N`, which reads at most that many bytes through the borrowed reader.
pub fn make_read<R: Read>(r: &mut R, call: &Call<'_>, line: &mut Line) {
    match call.word {
        "read" | "read_exact" | "read_full" => call_fill(r, call, line),
        "read_to_string" => call_read_to_string(r, call, line),
        "read_to_end" => match Vec::from_slice(call.alloc, &call.bytes) {
            Ok(all) => call_read_to_end(r, all, line),
            Err(_) => line.cut(),
        },
        "read_at_most" => call_read_at_most(call.alloc, r, call.number(line), line),
        "read_into" => match Vec::with_capacity(call.alloc, call.number(line)) {
            Ok(all) => call_read_to_end(r, all, line),
            Err(_) => line.cut(),
        },
        "take" => {
            let mut limited = r.by_ref().take(call.number(line) as u64);
            call_read_to_end(&mut limited, Vec::new(call.alloc), line);
        }
        _ => line.tell(Unplayed::NoCall),
    }
}

/// Makes the call of a row on any `BufRead`: besides those of [`make_read`], these are `fill_buf`, `pass N`, which
/// lends and consumes at most that many bytes, `skip N`, `read_until DELIMITER` and `skip_until DELIMITER`, whose
/// default is a newline, and `read_line OLD`, which appends to this text.
pub fn make_lend<R: BufRead>(r: &mut R, call: &Call<'_>, line: &mut Line) {
    match call.word {
        "fill_buf" => call_fill_buf(r, line),
        "pass" => show_given(&pass(r, call.number(line)), b"", line),
        "skip" => call_skip(r, call.number(line), line),
        "read_until" => call_read_until(r, call, line),
        "skip_until" => show_given(&r.skip_until(delim_of(call)), b"", line),
        "read_line" => call_read_line(r, call, line),
        _ => make_read(r, call, line),
    }
}

/// Makes the call of a row on any reader that seeks, `read_exact_at N FROM OFFSET`, and prints its result.
pub fn make_read_at<R: Read + Seek>(r: &mut R, call: &Call<'_>, line: &mut Line) {
    let (count, place) = cut(call.rest, " ");
    let (Ok(count), Some(at)) = (count.parse::<usize>(), target(place)) else {
        line.tell(Unplayed::NoWord);
        return;
    };
    let mut room = dots(call.alloc, count, line);
    line.done(&read_exact_at(r, at, &mut room));
    line.bytes_column(&room);
}
