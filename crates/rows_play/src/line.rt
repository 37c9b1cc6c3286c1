// A row of a table as it is printed: a call, its result and the state afterwards, in columns.
//
// A run is a list of bytes of which each follows the one before it: dots, or the letters from `a` to `w`, over and
// over. A long run is printed as `\*300a`: 300 bytes from `a` on.
use no_std_io2::io::{Error, Result};
use std::alloc::{AllocError, AllocFailed, Global};
use std::fmt;

/// Why a file of rows is not played to its end. It has no text of its own, because a type with a lifetime makes each `?`
/// dear to prove.
#[derive(Clone, Copy, Debug, Drop)]
pub enum Unplayed {
    Memory,
    NoRow,
    NoStream,
    NoCall,
    NoNumber,
    NoEscape,
    // A kind of error, an act, a result or another word.
    NoWord,
    // A call on a stream that is gone, in use or in another state.
    NotReady,
    // A state that no row can say.
    Otherwise,
}

impl From<AllocError> for Unplayed {
    fn from(_error: AllocError) -> Unplayed {
        Unplayed::Memory
    }
}

impl<T: Drop> From<AllocFailed<T>> for Unplayed {
    fn from(_refused: AllocFailed<T>) -> Unplayed {
        Unplayed::Memory
    }
}

pub type Played<T> = std::result::Result<T, Unplayed>;

// A text that is printed piece by piece. If an allocation fails, or if its row cannot be played, it
// remembers that, so that the printing code need not stop.
#[derive(Drop)]
pub struct Line {
    alloc: Global,
    text: String,
    is_cut: bool,
    is_malformed: bool,
}

impl Line {
    pub fn new(alloc: Global) -> Line {
        Line {
            alloc,
            text: String::new(alloc),
            is_cut: false,
            is_malformed: false,
        }
    }

    pub fn as_str(&self) -> &str {
        self.text.as_str()
    }

    pub fn clear(&mut self) {
        self.text.clear();
    }

    // Returns whether an allocation failed for a part of it.
    pub fn is_cut(&self) -> bool {
        self.is_cut
    }

    // Notes that a part is missing.
    pub fn cut(&mut self) {
        self.is_cut = true;
    }

    // Returns whether its row cannot be played.
    pub fn is_malformed(&self) -> bool {
        self.is_malformed
    }

    // Prints why a row cannot be played, in place of a result.
    pub fn tell(&mut self, fault: Unplayed) {
        if matches!(fault, Unplayed::Memory) {
            self.cut();
            return;
        }
        self.name(&fault);
        self.is_malformed = true;
    }

    // Ends a column.
    pub fn column(&mut self) {
        self.word(" | ");
    }

    pub fn word(&mut self, word: &str) {
        if self.text.push_str(word).is_err() {
            self.cut();
        }
    }

    /// Begins an item of a list.
    pub fn item(&mut self, word: &str) {
        if !self.text.is_empty() {
            self.word(", ");
        }
        self.word(word);
    }

    fn character(&mut self, character: char) {
        if self.text.push(character).is_err() {
            self.cut();
        }
    }

    /// Prints a number or another value.
    pub fn value<T: fmt::Display + Drop>(&mut self, value: T) {
        match format!(in self.alloc; "{value}") {
            Ok(text) => self.word(text.as_str()),
            Err(_) => self.cut(),
        }
    }

    /// Prints a column with a value.
    pub fn value_column<T: fmt::Display + Drop>(&mut self, value: T) {
        self.column();
        self.value(value);
    }

    /// Prints a column with bytes.
    pub fn bytes_column(&mut self, bytes: &[u8]) {
        self.column();
        self.bytes(bytes);
    }

    // Prints a text, or a dash if it is empty.
    pub fn text(&mut self, text: &str) {
        self.word(if text.is_empty() { "-" } else { text });
    }

    // Prints bytes, escaped if they are not printable, or a dash if there are none.
    pub fn bytes(&mut self, bytes: &[u8]) {
        let Some((first, rest)) = bytes.split_first() else {
            self.word("-");
            return;
        };
        let mut run = Run::of(*first);
        'bytes: for b in rest {
            if following(run.last) == Some(*b) {
                run = run.add(*b);
            } else {
                self.run(run);
                run = Run::of(*b);
            }
        }
        self.run(run);
    }

    fn run(&mut self, run: Run) {
        if run.count >= LONG {
            self.word("\\*");
            self.value(run.count);
            self.byte(run.first);
            return;
        }
        let mut byte = run.first;
        'bytes: for _ in 0..run.count {
            self.byte(byte);
            byte = following(byte).unwrap_or(byte);
        }
    }

    fn byte(&mut self, b: u8) {
        match b {
            b'\n' => self.word("\\n"),
            b'\\' => self.word("\\\\"),
            32..=126 => self.character(char::from(b)),
            _ => {
                self.word("\\x");
                self.character(hex(b / 16));
                self.character(hex(b % 16));
            }
        }
    }

    // Prints the name of a kind or of a fault.
    pub fn name<T: fmt::Debug>(&mut self, named: &T) {
        match format!(in self.alloc; "{named:?}") {
            Ok(name) => self.word(name.as_str()),
            Err(_) => self.cut(),
        }
    }

    // Prints the name of the kind after a mark, and the text if there is one.
    pub fn error(&mut self, error: &Error) {
        self.word("!");
        self.name(&error.kind());
        if let Some(text) = error.get_ref() {
            self.word(": ");
            self.word(text);
        }
    }

    // Prints the result of a call that returns no number.
    pub fn done(&mut self, answer: &Result<()>) {
        match answer {
            Ok(()) => self.word("ok"),
            Err(e) => self.error(e),
        }
    }

    // Prints the result of a call that returns a length or a position.
    pub fn answer<T: fmt::Display + Copy + Drop>(&mut self, answer: &Result<T>) {
        match answer {
            Ok(n) => self.value(*n),
            Err(e) => self.error(e),
        }
    }
}

/// Returns the texts on both sides of the first `mark`. If there is none, the second is empty.
pub fn cut<'a>(text: &'a str, mark: &str) -> (&'a str, &'a str) {
    match text.split_once(mark) {
        Some(both) => both,
        None => (text, ""),
    }
}

/// Returns the texts on both sides of the last `mark`. If there is none, the first is empty.
pub fn cut_last<'a>(text: &'a str, mark: &str) -> (&'a str, &'a str) {
    match text.rsplit_once(mark) {
        Some(both) => both,
        None => ("", text),
    }
}

/// Returns the number that a word is.
pub fn number(word: &str) -> Played<usize> {
    match word.parse::<usize>() {
        Ok(n) => Ok(n),
        Err(_) => Err(Unplayed::NoNumber),
    }
}

/// Returns the number that is the first word of a line, and the rest of the line.
pub fn cut_number(words: &str) -> Played<(usize, &str)> {
    let (word, rest) = cut(words, " ");
    Ok((number(word)?, rest))
}

// The length from which on a run is printed as one.
const LONG: u64 = 24;

// A run of bytes, of which each follows the one before it.
#[derive(Clone, Copy)]
struct Run {
    first: u8,
    last: u8,
    count: u64,
}

impl Run {
    fn of(byte: u8) -> Run {
        Run {
            first: byte,
            last: byte,
            count: 1,
        }
    }

    fn add(self, byte: u8) -> Run {
        Run {
            last: byte,
            count: self.count.wrapping_add(1),
            ..self
        }
    }
}

// Returns the byte after this one in a run.
fn following(byte: u8) -> Option<u8> {
    match byte {
        b'a'..=b'v' => Some(byte + 1),
        b'w' => Some(b'a'),
        b'.' => Some(b'.'),
        _ => None,
    }
}

// The part of an escaped byte or run that was read.
#[derive(Clone, Copy)]
enum Escape {
    None,
    Mark,
    Hex,
    Low(u8),
    Count(u64),
}

// Returns the state after one more character, and the run that ends there; `None` for a bad escape.
fn step(escape: Escape, b: u8) -> Option<(Escape, Option<Run>)> {
    match (escape, b) {
        (Escape::None, b'\\') => Some((Escape::Mark, None)),
        (Escape::None, b) => Some((Escape::None, Some(Run::of(b)))),
        (Escape::Mark, b'n') => Some((Escape::None, Some(Run::of(b'\n')))),
        (Escape::Mark, b'\\') => Some((Escape::None, Some(Run::of(b'\\')))),
        (Escape::Mark, b'x') => Some((Escape::Hex, None)),
        (Escape::Mark, b'*') => Some((Escape::Count(0), None)),
        (Escape::Mark, _) => None,
        (Escape::Hex, high) => Some((Escape::Low(digit(high)?), None)),
        (Escape::Low(high), low) => {
            let byte = high.wrapping_mul(16).wrapping_add(digit(low)?);
            Some((Escape::None, Some(Run::of(byte))))
        }
        (Escape::Count(count), b'0'..=b'9') => {
            let count = count.wrapping_mul(10).wrapping_add(u64::from(b - b'0'));
            Some((Escape::Count(count), None))
        }
        (Escape::Count(count), first) => {
            following(first)?;
            let run = Run {
                count,
                ..Run::of(first)
            };
            Some((Escape::None, Some(run)))
        }
    }
}

fn push_run(bytes: &mut Vec<u8>, run: Run) -> Played<()> {
    let mut byte = run.first;
    'bytes: for _ in 0..run.count {
        bytes.push(byte)?;
        byte = following(byte).unwrap_or(byte);
    }
    Ok(())
}

// Returns the bytes that a printed text stands for.
pub fn unescape(alloc: Global, text: &str) -> Played<Vec<u8>> {
    let mut bytes = Vec::new(alloc);
    let mut escape = Escape::None;
    'bytes: for b in text.as_bytes() {
        let Some((now, run)) = step(escape, *b) else {
            return Err(Unplayed::NoEscape);
        };
        escape = now;
        if let Some(run) = run {
            push_run(&mut bytes, run)?;
        }
    }
    match escape {
        Escape::None => Ok(bytes),
        _ => Err(Unplayed::NoEscape),
    }
}

// Returns the hexadecimal digit of a number below 16.
fn hex(number: u8) -> char {
    if number < 10 {
        char::from(number.wrapping_add(b'0'))
    } else {
        char::from(number.wrapping_add(b'a' - 10))
    }
}

// Returns the number of a hexadecimal digit.
fn digit(b: u8) -> Option<u8> {
    match b {
        b'0'..=b'9' => Some(b - b'0'),
        b'a'..=b'f' => Some(b - b'a' + 10),
        _ => None,
    }
}
