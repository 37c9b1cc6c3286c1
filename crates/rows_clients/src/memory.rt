// Rows of calls that allocate. `scripts/check_memory` has them played so that in each run one allocation fails, and once to
// measure how much each call allocates.
//
// A row of standard input is a call, with a number or without, followed by a bar and the sizes of its allocations, or
// `none`, which the script compares. What is printed is the call and how it ended: `whole`; `refused`, if an allocation
// failed and nothing else went wrong (then the call was made once more, if it can continue); or what it returned instead.
// Each line is one write, so that the script knows which row allocated.
mod large;
mod small;

use no_std_io2::io::{BufWriter, Cursor, Error, ErrorKind, Result, Write, copy};
use std::alloc::Global;
use std::io;
use std::process::ExitCode;
use system_streams::Patient;

/// The outcome of a row. It has no text of its own, because a type with a lifetime makes each move dear to prove.
#[derive(Clone, Copy, PartialEq, Eq)]
pub enum Outcome {
    Whole,
    // An allocation failed, and nothing else went wrong.
    Refused,
    NoCall,
    NoItem,
    OtherError,
    OtherBytes,
}

impl Outcome {
    /// Returns the outcome of an error.
    pub fn of_error(error: &Error) -> Outcome {
        if error.kind() == ErrorKind::OutOfMemory && error.get_ref().is_none() {
            Outcome::Refused
        } else {
            Outcome::OtherError
        }
    }

    /// Returns the outcome of a result.
    pub fn of<T>(answer: &Result<T>) -> Outcome {
        match answer {
            Ok(_) => Outcome::Whole,
            Err(e) => Outcome::of_error(e),
        }
    }

    /// Returns the outcome of two calls, one after the other.
    pub fn and(self, next: Outcome) -> Outcome {
        match self {
            Outcome::Whole => next,
            Outcome::Refused if next != Outcome::Whole => next,
            _ => self,
        }
    }

    /// Returns this outcome if the data is right, and else an error.
    pub fn if_right(self, is_right: bool) -> Outcome {
        if is_right { self } else { Outcome::OtherBytes }
    }

    /// Returns this outcome if the length is right, and else an error.
    pub fn if_full(self, len: usize, want: usize) -> Outcome {
        match self {
            Outcome::Whole => Outcome::Whole.if_right(len == want),
            other => other,
        }
    }

    /// Returns the text that is printed.
    pub fn text(self) -> &'static str {
        match self {
            Outcome::Whole => "whole",
            Outcome::Refused => "refused",
            Outcome::NoCall => "no such call",
            Outcome::NoItem => "no such item",
            Outcome::OtherError => "an error of another kind",
            Outcome::OtherBytes => "other bytes",
        }
    }
}

fn play_long(alloc: Global, text: &[u8], word: &str, len: usize) -> Outcome {
    match word {
        "gap" => large::by_gap(alloc, len),
        "queue" => large::by_queue(alloc, text, len),
        "writes" => large::by_writes(alloc, text, len),
        "read_to_end" => large::by_known(alloc, text, len),
        "read_to_end_unknown" => large::by_unknown(alloc, text, len),
        "read_to_string" => large::by_read_to_string(alloc, text, len),
        "read_to_string_behind" => large::by_read_behind(alloc, text, len),
        "read_until" => large::by_read_until(alloc, text, len),
        "read_line" => large::by_read_line(alloc, text, len),
        "split" => large::by_split(alloc, text, len),
        "lines" => large::by_lines(alloc, text, len),
        "read_message" => large::by_read_message(alloc, text, len),
        "read_long_message" => large::by_read_long_message(alloc, text, len),
        "cut_message" => large::by_cut_message(alloc, text, len),
        _ => Outcome::NoCall,
    }
}

fn play(alloc: Global, text: &[u8], call: &str) -> Outcome {
    match call {
        "short read_line" => small::by_read_lines(alloc),
        "short split" => small::by_split(alloc),
        "short lines" => small::by_lines(alloc),
        "joined" => small::by_joined(alloc),
        "run_writes" => small::by_run_writes(alloc),
        "run_closed" => small::by_run_closed(alloc),
        "run_split" => small::by_run_split(alloc),
        "run_lines" => small::by_run_lines(alloc),
        _ => {
            let (word, len) = call.split_once(" ").unwrap_or((call, ""));
            match len.parse::<usize>() {
                Ok(len) => play_long(alloc, text, word, len),
                Err(_) => Outcome::NoCall,
            }
        }
    }
}

fn play_rows(rt: &HostRuntime, text: &[u8], script: &str) -> Result<()> {
    let mut out = BufWriter::<_, 256>::new(Patient::new(io::writer(rt), u64::MAX));
    'rows: for row in script.lines() {
        let (call, _sizes) = row.split_once(" | ").unwrap_or((row, ""));
        let outcome = play(rt.alloc(), text, call);
        out.write_all(call.as_bytes())?;
        out.write_all(b": ")?;
        out.write_all(outcome.text().as_bytes())?;
        out.write_all(b"\n")?;
        out.flush()?;
    }
    Ok(())
}

/// Plays the rows of standard input.
pub fn play_input(rt: &HostRuntime) -> ExitCode {
    let mut room = [0u8; 4096];
    let mut input = Patient::new(rt.reader(), u64::MAX);
    let Ok(len) = copy::<_, _, 512>(&mut input, &mut Cursor::new(&mut room[..])) else {
        return ExitCode::FAILURE;
    };
    let text = [b'a'; 300_000];
    let rows = &room[..(len as usize).min(room.len())];
    match std::str::from_utf8(rows) {
        Ok(script) if play_rows(rt, &text, script).is_ok() => ExitCode::SUCCESS,
        _ => ExitCode::FAILURE,
    }
}
