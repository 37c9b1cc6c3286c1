// The results that a device is to return.
use super::line::{Played, Unplayed, cut, number, unescape};
use io_bench::{Act, Event, Reply, kind_of_name};
use no_std_io2::io::{Error, ErrorKind};
use std::alloc::Global;

// What a device does with its next call.
#[derive(Drop)]
pub enum Answer {
    // `all`, `end`, or no result is left: it takes all, and gives nothing.
    Plain,
    // `take 2`: a write takes at most this many bytes.
    Take(usize),
    // `give abc`: a read gives these bytes, and a later read those that did not fit.
    Give(Vec<u8>),
    // `at 5`: a seek returns this position.
    At(u64),
    // `fail KIND` or `fail KIND TEXT`, by the place of the text.
    Fail(ErrorKind, Option<usize>),
}

// The texts that an error may have. An error can only contain a text of the program.
const TEXTS: &str = "again, busy, five, four, full, gone, late, late again, no carrier, no length, \
    no room, one, out of order, refused, six, slow, three, too far, two";

fn place_of(words: &str) -> Option<usize> {
    'texts: for (i, text) in TEXTS.split(", ").enumerate() {
        if text == words {
            return Some(i);
        }
    }
    None
}

// Returns the error of a result.
pub fn error_of(kind: ErrorKind, place: Option<usize>) -> Error {
    match TEXTS.split(", ").nth(place.unwrap_or(usize::MAX)) {
        Some(text) => Error::new(kind, text),
        None => Error::from(kind),
    }
}

/// What stands in a list of words.
pub trait Word: Drop {
    /// Returns what the word says.
    fn parse(alloc: Global, word: &str) -> Played<Self>
    where
        Self: Sized;
}

/// Returns what the words of a list say, in order.
pub fn parse_list<T: Word>(alloc: Global, words: &str) -> Played<Vec<T>> {
    let mut list = Vec::new(alloc);
    if words.is_empty() {
        return Ok(list);
    }
    'words: for word in words.split(", ") {
        list.push(T::parse(alloc, word)?)?;
    }
    Ok(list)
}

// Returns the results that a line names, the last one first.
pub fn parse_answers(alloc: Global, words: &str) -> Played<Vec<Answer>> {
    let mut answers = parse_list(alloc, words)?;
    answers.reverse();
    Ok(answers)
}

impl Word for Answer {
    fn parse(alloc: Global, words: &str) -> Played<Answer> {
        let (word, rest) = cut(words, " ");
        match word {
            "all" | "end" => Ok(Answer::Plain),
            "give" => Ok(Answer::Give(unescape(alloc, rest)?)),
            "take" => Ok(Answer::Take(number(rest)?)),
            "at" => Ok(Answer::At(number(rest)? as u64)),
            "fail" => parse_failure(rest),
            _ => Err(Unplayed::NoWord),
        }
    }
}

fn parse_failure(words: &str) -> Played<Answer> {
    let (name, text) = cut(words, " ");
    let kind = kind_of(name)?;
    if text.is_empty() {
        return Ok(Answer::Fail(kind, None));
    }
    match place_of(text) {
        Some(place) => Ok(Answer::Fail(kind, Some(place))),
        None => Err(Unplayed::NoWord),
    }
}

// Returns the kind of this name.
fn kind_of(name: &str) -> Played<ErrorKind> {
    match kind_of_name(name) {
        Some(kind) => Ok(kind),
        None => Err(Unplayed::NoWord),
    }
}

// The acts of a `Faulty`: `take 2, zero, fail BrokenPipe`.
impl Word for Act {
    fn parse(_alloc: Global, words: &str) -> Played<Act> {
        let (word, rest) = cut(words, " ");
        match word {
            "zero" => Ok(Act::Zero),
            "take" => Ok(Act::Take(number(rest)?)),
            "fail" => Ok(Act::Fail(kind_of(rest)?)),
            _ => Err(Unplayed::NoWord),
        }
    }
}

// The bytes and failures of a `Feed`: `x, Interrupted, \n`.
impl Word for Event {
    fn parse(_alloc: Global, word: &str) -> Played<Event> {
        match word.as_bytes() {
            [byte] => Ok(Event::Byte(*byte)),
            b"\\n" => Ok(Event::Byte(b'\n')),
            _ => Ok(Event::Fail(kind_of(word)?)),
        }
    }
}

// The replies of a run: `2, ok, !BrokenPipe`.
impl Word for Reply {
    fn parse(_alloc: Global, word: &str) -> Played<Reply> {
        match word.strip_prefix("!") {
            Some(name) => Ok(Reply::Failed(Error::from(kind_of(name)?))),
            None if word == "ok" => Ok(Reply::Done),
            None => Ok(Reply::Took(number(word)?)),
        }
    }
}
