// How much room `read_to_end` and `read_until` make in a vector, and `read_line` in a string; and growths that a heap
// refuses.
//
// A row of `room` is a call, the capacity, how many bytes are held, and how many are to come; a piece or a line that has
// some is followed by 40 others. Its columns are the result, the length and the capacity afterwards, and how many bytes are
// left. A row of `heap` has the heap's size before the capacity, and how many bytes of it are in use in place of the
// capacity; the delimiter does not come. A row `within` is a heap's size, a call and how many bytes are to come; then the
// smallest heap that has room for all of it, which must not be larger. In each smaller heap the call fails, and the vector
// followed by what is left is all that was to come.
//
// A heap has room for a number of bytes, in blocks whose lengths are rounded up to 16. A block that grows is in the heap
// together with its copy until the copy is made.
ghost use Rattle.std.specs.Prelude.{◌<◌, ◌^◌};

use io_bench::{Event, Feed, Tally};
use linked_list_allocator::LocalHeap;
use no_std_io2::io::{BufRead, BufReader, Chain, Cursor, ErrorKind, Read, Result};
use rows_play::prelude::*;
use std::alloc::Global;

// The bytes that follow a piece or a line.
const BEHIND: &[u8] = b"\nbbbbbbbbbbbbbbbbbbbbbbbbbbbbbbbbbbbbbbbb";

// The bytes that are in a vector at first, at most this many.
const DOTS: [u8; 2000] = [b'.'; 2000];

// The size of a heap that refuses nothing.
const AMPLE: usize = 1 << 17;

// The call of a trial.
#[derive(Clone, Copy, PartialEq)]
enum Reads {
    All,
    Until,
    Line,
}

// What a row says.
#[derive(Clone, Copy)]
struct Trial {
    alloc: Global,
    // Whether the heap may be too small.
    is_in_heap: bool,
    // Whether smaller heaps are tried too.
    is_within: bool,
    reads: Reads,
    heap: usize,
    capacity: usize,
    held: usize,
    // How many bytes are to come.
    bytes: usize,
}

fn reads_of(word: &str) -> Played<Reads> {
    match word {
        "read_to_end" => Ok(Reads::All),
        "read_until" => Ok(Reads::Until),
        "read_line" => Ok(Reads::Line),
        _ => Err(Unplayed::NoCall),
    }
}

impl Trial {
    fn parse(is_in_heap: bool, call: &Call<'_>) -> Played<Trial> {
        let is_within = call.word == "within";
        let (heap, rest) = if is_in_heap {
            cut_number(call.rest)?
        } else {
            (AMPLE, call.rest)
        };
        let (word, capacity, held, bytes) = if is_within {
            let (word, bytes) = cut(rest, " ");
            (word, 0, 0, bytes)
        } else {
            let (capacity, rest) = cut_number(rest)?;
            let (held, bytes) = cut_number(rest)?;
            (call.word, capacity, held, bytes)
        };
        Ok(Trial {
            alloc: call.alloc,
            is_in_heap,
            is_within,
            reads: reads_of(word)?,
            heap,
            capacity,
            held,
            bytes: number(bytes)?,
        })
    }

    // Returns the bytes to come, and those that follow them.
    fn text(self) -> Played<Vec<u8>> {
        let mut text = Vec::new(self.alloc);
        if self.is_in_heap || self.reads == Reads::All || self.bytes == 0 {
            text.resize(self.bytes, b'a')?;
        } else {
            text.resize(self.bytes - 1, b'a')?;
            text.extend_from_slice(BEHIND)?;
        }
        Ok(text)
    }

    // Returns the outcome of a read of a text that appended to some dots.
    fn end<R: Read>(
        self,
        text: &[u8],
        answer: &Result<usize>,
        all: &[u8],
        room: usize,
        r: &mut R,
        line: &mut Line,
    ) -> Outcome {
        let (front, given) = all.split_at(self.held.min(all.len()));
        let (taken, rest) = text.split_at(given.len().min(text.len()));
        if front.len() != self.held || !DOTS.starts_with(front) || given != taken {
            line.tell(Unplayed::Otherwise);
        }
        Outcome {
            is_refused: is_refused(answer, given.len(), line),
            len: all.len(),
            room,
            left: left_of(self.alloc, rest, r, line),
        }
    }
}

// Returns whether a read failed for lack of memory. If it did not, it has to give this many bytes.
fn is_refused(answer: &Result<usize>, given: usize, line: &mut Line) -> bool {
    match answer {
        Ok(n) => {
            if *n != given {
                line.tell(Unplayed::Otherwise);
            }
            false
        }
        Err(e) => {
            if e.kind() != ErrorKind::OutOfMemory || e.get_ref().is_some() {
                line.tell(Unplayed::Otherwise);
            }
            true
        }
    }
}

// Returns how many bytes are left, which have to be those at the front of the rest.
fn left_of<R: Read>(alloc: Global, rest: &[u8], r: &mut R, line: &mut Line) -> usize {
    let mut left = Vec::new(alloc);
    if r.read_to_end(&mut left).is_err() || !rest.starts_with(&left) {
        line.tell(Unplayed::Otherwise);
    }
    left.len()
}

// The outcome of a trial.
#[derive(Clone, Copy)]
struct Outcome {
    is_refused: bool,
    len: usize,
    // How many bytes of the heap are in use, or the capacity.
    room: usize,
    left: usize,
}

// Reads all.
fn read_all<R: Read>(trial: Trial, text: &[u8], r: &mut R, line: &mut Line) -> Played<Outcome> {
    if trial.reads != Reads::All {
        return Err(Unplayed::NoCall);
    }
    let heap = LocalHeap::new(trial.alloc, trial.heap)?;
    let mut all = Vec::with_capacity(&heap, trial.capacity)?;
    all.resize(trial.held, b'.')?;
    let answer = r.read_to_end(&mut all);
    let room = room_of(trial, heap.used(), all.capacity());
    Ok(trial.end(text, &answer, &all, room, r, line))
}

fn room_of(trial: Trial, used: usize, capacity: usize) -> usize {
    if trial.is_in_heap { used } else { capacity }
}

// Reads up to a newline.
fn read_piece<R: BufRead>(
    trial: Trial,
    text: &[u8],
    r: &mut R,
    line: &mut Line,
) -> Played<Outcome> {
    let heap = LocalHeap::new(trial.alloc, trial.heap)?;
    let mut all = Vec::with_capacity(&heap, trial.capacity)?;
    all.resize(trial.held, b'.')?;
    let answer = r.read_until(b'\n', &mut all);
    let room = room_of(trial, heap.used(), all.capacity());
    Ok(trial.end(text, &answer, &all, room, r, line))
}

fn read_line<R: BufRead>(trial: Trial, text: &[u8], r: &mut R, line: &mut Line) -> Played<Outcome> {
    let mut all = String::with_capacity(trial.alloc, trial.capacity)?;
    'dots: for _ in 0..trial.held {
        all.push_str(".")?;
    }
    let answer = r.read_line(trial.alloc, &mut all);
    Ok(trial.end(text, &answer, all.as_bytes(), all.capacity(), r, line))
}

// Makes the call of a row.
fn read<R: BufRead>(trial: Trial, text: &[u8], r: &mut R, line: &mut Line) -> Played<Outcome> {
    match trial.reads {
        Reads::All => read_all(trial, text, r, line),
        Reads::Until => read_piece(trial, text, r, line),
        Reads::Line => read_line(trial, text, r, line),
    }
}

fn read_lent<R: BufRead>(trial: Trial, text: &[u8], r: &mut R, line: &mut Line) -> Played<Outcome> {
    read(trial, text, &mut &mut *r, line)
}

fn read_boxed(trial: Trial, name: &str, text: &[u8], line: &mut Line) -> Played<Outcome> {
    let content = Cursor::new(Vec::from_slice(trial.alloc, text)?);
    let boxed = Box::new(trial.alloc, content)?;
    match name {
        "Box dyn Read" => {
            let mut object: Box<dyn Read + Drop> = boxed;
            read_all(trial, text, &mut object, line)
        }
        "Box dyn BufRead" => {
            let mut object: Box<dyn BufRead + Drop> = boxed;
            read(trial, text, &mut object, line)
        }
        _ => {
            let mut boxed = boxed;
            read(trial, text, &mut boxed, line)
        }
    }
}

// Reads through a buffer of S bytes that is empty, or full.
fn read_buffer<const S: usize>(
    trial: Trial,
    text: &[u8],
    is_full: bool,
    line: &mut Line,
) -> Played<Outcome>
    requires some_room { 0 < S }
    requires in_memory { S < 2 ^ 32 }
{
    let mut reader = BufReader::<Cursor<&[u8]>, S>::new(Cursor::new(text));
    if is_full && reader.fill_buf().is_err() {
        line.tell(Unplayed::NotReady);
    }
    read(trial, text, &mut reader, line)
}

// Reads from a chain of two readers with different lifetimes.
fn read_both<A: BufRead, B: BufRead>(
    trial: Trial,
    text: &[u8],
    chain: &mut Chain<A, B>,
    line: &mut Line,
) -> Played<Outcome> {
    read(trial, text, chain, line)
}

// Reads through `Take N`, at most N bytes.
fn read_limit(trial: Trial, name: &str, text: &[u8], line: &mut Line) -> Played<Outcome> {
    let limit = match name {
        "Take MAX" => Ok(u64::MAX),
        _ => name.strip_prefix("Take ").unwrap_or("").parse::<u64>(),
    };
    match limit {
        Ok(limit) => read(trial, text, &mut Cursor::new(text).take(limit), line),
        Err(_) => Err(Unplayed::NoStream),
    }
}

// Reads from a feed, which has the trait's body.
fn read_feed(trial: Trial, text: &[u8], line: &mut Line) -> Played<Outcome> {
    let mut events = Vec::new(trial.alloc);
    events.resize(text.len(), Event::Byte(b'a'))?;
    let piece = if trial.is_in_heap { 7 } else { 100 };
    read_all(trial, text, &mut Feed::new(events, piece), line)
}

// Reads from the reader of this name: a slice, a cursor by itself or below another reader, a buffer that may be full, a
// chain of two halves, or of nothing and then a cursor, a limit, or a feed.
fn read_name(trial: Trial, name: &str, text: &[u8], line: &mut Line) -> Played<Outcome> {
    let (first, second) = text.split_at(text.len() / 2);
    match name {
        "&[u8]" => read(trial, text, &mut &*text, line),
        "Cursor" => read(trial, text, &mut Cursor::new(text), line),
        "&mut Cursor" => read_lent(trial, text, &mut Cursor::new(text), line),
        "Box Cursor" | "Box dyn Read" | "Box dyn BufRead" => read_boxed(trial, name, text, line),
        "BufReader 4" => read_buffer::<4>(trial, text, false, line),
        "BufReader 4 full" => read_buffer::<4>(trial, text, true, line),
        "BufReader 64 full" => read_buffer::<64>(trial, text, true, line),
        "Tally" => read_all(trial, text, &mut Tally::new(Cursor::new(text)), line),
        "Chain" => read_both(trial, text, &mut first.chain(second), line),
        "Chain behind nothing" => {
            read_both(trial, text, &mut b"".chain(Cursor::new(text)), line)
        }
        "Feed" => read_feed(trial, text, line),
        _ => read_limit(trial, name, text, line),
    }
}

fn show(trial: Trial, outcome: Outcome, line: &mut Line) {
    if outcome.is_refused {
        line.word("!OutOfMemory");
    } else {
        line.value(outcome.len.wrapping_sub(trial.held));
    }
    'numbers: for number in &[outcome.len, outcome.room, outcome.left] {
        line.value_column(*number);
    }
}

// Tries each size of the heap up to the first in which a read succeeds, and prints whether that is at most this size.
fn show_need(trial: Trial, name: &str, text: &[u8], line: &mut Line) -> Played<()> {
    'heaps: for units in 1..400 {
        let heap = 16 * units;
        let outcome = read_name(Trial { heap, ..trial }, name, text, line)?;
        if outcome.len.wrapping_add(outcome.left) != trial.bytes {
            return Err(Unplayed::Otherwise);
        }
        if !outcome.is_refused {
            if heap <= trial.heap {
                line.word("ok");
            } else {
                line.value(heap);
            }
            return Ok(());
        }
    }
    Err(Unplayed::Otherwise)
}

fn try_call(name: &str, is_in_heap: bool, call: &Call<'_>, line: &mut Line) -> Played<()> {
    let trial = Trial::parse(is_in_heap, call)?;
    let text = trial.text()?;
    if trial.is_within {
        return show_need(trial, name, &text, line);
    }
    let outcome = read_name(trial, name, &text, line)?;
    show(trial, outcome, line);
    Ok(())
}

/// Readers of this name.
#[derive(Drop)]
pub struct Trials<'a> {
    pub name: &'a str,
    /// Whether the rows are of a heap.
    pub is_in_heap: bool,
}

impl<'a> Stream for Trials<'a> {
    fn play(&mut self, call: &Call<'_>, line: &mut Line) {
        if let Err(fault) = try_call(self.name, self.is_in_heap, call, line) {
            line.tell(fault);
        }
    }
}
