// `copy_through`, to an output that notes its calls, and a `Patient`.
//
// A row is a copy of the text after it, with a line buffer, `line`, or without, `buf`; then its result and the calls of
// the output. With `from` a device is copied, whose calls are shown too; with `pieces` three reads give `ab\nc`,
// `d\ne\n` and `f`. Over a vector the column behind the result is what it has then.
//
// A `Patient` is over a device of the standard library that notes its calls, and the name of each. A line `new` says its
// turns, and after a colon the device's results. A row is a call; then its result, for a read the bytes that it gave, and
// the calls that reached the device.
ghost use Rattle.no_std_io2.specs.{BufReader.{BufReaderFits}, BufWriter.{BufWriterFits}, LineWriter.{LineWriterFits}};

use crate::client::{Client, Columns, new_device, on_journal, play};
use io_bench::{Event, Feed};
use no_std_io2::io::{Read, Write, copy as copy_in_chunks};
use rows_play::prelude::*;
use std::alloc::Global;
use system_streams::{Patient, ToStd, copy_through};

// Returns an event for each byte.
fn events_of(alloc: Global, bytes: &[u8], line: &mut Line) -> Vec<Event> {
    let mut events = Vec::new(alloc);
    'bytes: for byte in bytes {
        if events.push(Event::Byte(*byte)).is_err() {
            line.cut();
        }
    }
    events
}

fn copy<R: Read + Drop, W: Write + Drop>(input: R, output: W, form: &str, line: &mut Line)
    requires reads { BufReaderFits R.row 64 }
    requires buffer { BufWriterFits W.row 64 }
    requires lines { LineWriterFits W.row 64 }
{
    match copy_through(input, output, form == "line") {
        Ok((count, _output)) => line.value(count),
        Err(e) => line.error(&e),
    }
}

// A device that is read and one that is written, which note their calls in one journal.
#[derive(Drop)]
struct Ends {
    input: Recorder,
    output: Recorder,
}

impl Client for Ends {
    fn call(&mut self, call: &Call<'_>, line: &mut Line) {
        match call.word {
            "pieces" => {
                let pieces = Feed::new(events_of(call.alloc, b"ab\ncd\ne\nf", line), 4);
                copy(pieces, &mut self.output, call.rest, line);
            }
            "from" => copy(&mut self.input, &mut self.output, call.rest, line),
            "buf" | "line" => copy(call.bytes.as_slice(), &mut self.output, call.word, line),
            _ => line.tell(Unplayed::NoCall),
        }
    }
}

/// Lends copies between two devices that have these results, in the order of their calls.
pub fn lend(words: &str, player: &mut Player<'_, '_>) -> Played<()> {
    let (input, journal) = new_device(player.alloc, words)?;
    let output = on_journal(player.alloc, &journal)?;
    play(Ends { input, output }, Columns::Calls(journal), player)
}

// A vector for each row. Besides `buf` and `line` there is `patient N of TEXT`, which copies from a reader of the standard
// library that has this many turns.
#[derive(Drop)]
struct ToVector;

impl Stream for ToVector {
    fn play(&mut self, call: &Call<'_>, line: &mut Line) {
        let mut vector = Vec::<u8>::new(call.alloc);
        let (turns, bytes) = cut(call.rest, " of ");
        match (call.word, turns.parse::<u64>()) {
            ("patient", Ok(turns)) => {
                let patient = Patient::new(bytes.as_bytes(), turns);
                copy(patient, &mut vector, "buf", line);
            }
            ("buf" | "line", _) => copy(call.bytes.as_slice(), &mut vector, call.word, line),
            _ => line.tell(Unplayed::NoCall),
        }
        line.bytes_column(&vector);
    }
}

/// Lends copies to vectors.
pub fn lend_vectors(player: &mut Player<'_, '_>) -> Played<()> {
    player.play(&mut ToVector)
}

// An output that also notes the name of each call, for copies without a buffer.
impl Client for Noted<Recorder> {
    fn call(&mut self, call: &Call<'_>, line: &mut Line) {
        match call.word {
            "copy" => {
                let mut input = call.bytes.as_slice();
                line.answer(&copy_in_chunks::<_, _, 4>(&mut input, self));
            }
            _ => line.tell(Unplayed::NoCall),
        }
    }
}

/// Lends copies by chunks of 4 bytes.
pub fn lend_plain(words: &str, player: &mut Player<'_, '_>) -> Played<()> {
    let (recorder, journal) = new_device(player.alloc, words)?;
    let output = Noted::new(recorder, journal.clone()?);
    play(output, Columns::Calls(journal), player)
}

impl Client for Patient<ToStd<Noted<Recorder>>> {
    fn call(&mut self, call: &Call<'_>, line: &mut Line) {
        if call.word.starts_with("read") {
            make_read(self, call, line);
        } else if !make_seek(self, call, line) {
            make_call(self, call, line);
        }
    }
}

/// Lends a `Patient` over a device of the standard library.
pub fn lend_patient(words: &str, player: &mut Player<'_, '_>) -> Played<()> {
    let (turns, answers) = cut(words, ": ");
    let Ok(turns) = turns.parse::<u64>() else {
        return Err(Unplayed::NoNumber);
    };
    let (recorder, journal) = new_device(player.alloc, answers)?;
    let device = ToStd::new(Noted::new(recorder, journal.clone()?));
    play(Patient::new(device, turns), Columns::Calls(journal), player)
}
