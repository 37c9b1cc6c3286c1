// Frames, and lines of a log, over devices that note their calls, through small buffers.
//
// A row of a sender is a call; then its result, for a log whether it is behind, the bytes out and the calls that
// reached the device; `drop` and `into_inner` end the sender. A row of a reader is a call; then its result and
// the calls.
use crate::client::{Client, Columns, new_device, play};
use crate::from_examples::values_of;
use framing::{FrameReader, FrameWriter};
use line_log::LineLog;
use log_sink::log_each;
use rows_play::prelude::*;
use std::fmt;

impl Client for FrameWriter<Recorder, 12> {
    fn call(&mut self, call: &Call<'_>, line: &mut Line) {
        match call.word {
            "send" => line.done(&self.send(&call.bytes)),
            "flush" => line.done(&self.flush()),
            _ => line.tell(Unplayed::NoCall),
        }
    }

    fn unwrap(self, columns: &Columns, line: &mut Line) {
        columns.show_ended(&self.into_inner(), line);
    }
}

// A reader of frames, and the room for a payload.
#[derive(Drop)]
struct Receiving {
    reader: FrameReader<Recorder, 8>,
    room: [u8; 12],
}

impl Receiving {
    // Makes the call `next N`, into the first N bytes of the room.
    fn next(&mut self, len: usize, line: &mut Line) {
        let mut room = self.room;
        match self.reader.next(&mut room[..len.min(12)]) {
            Ok(Some(count)) => {
                line.word("frame ");
                line.bytes(&room[..count]);
            }
            Ok(None) => line.word("-"),
            Err(e) => line.error(&e),
        }
        self.room = room;
    }
}

impl Client for Receiving {
    fn call(&mut self, call: &Call<'_>, line: &mut Line) {
        match call.word {
            "next" => {
                let len = call.number(line);
                self.next(len, line);
            }
            _ => line.tell(Unplayed::NoCall),
        }
    }
}

// A value that prints a part, and then fails.
#[derive(Drop)]
pub struct Broken;

impl fmt::Display for Broken {
    fn fmt<W: fmt::Write>(&self, f: &mut fmt::Formatter<W>) -> fmt::Result {
        f.write_str("ab")?;
        Err(fmt::Error)
    }
}

// Makes the calls `log TEXT`, `log_text TEXT`, which prints the text in two pieces followed by a
// number, and `log_broken`.
fn log(to: &mut LineLog<Recorder, 12>, call: &Call<'_>, line: &mut Line) {
    match std::str::from_utf8(&call.bytes) {
        Ok(text) if call.word == "log_text" => {
            line.done(&to.log_text(format_args!("{text}={}", 5)))
        }
        Ok(_) if call.word == "log_broken" => line.done(&to.log_text(Broken)),
        Ok(text) => line.done(&to.log(text)),
        Err(_) => line.tell(Unplayed::NoWord),
    }
}

// `log_each` logs readings, and shows how many were lost twice.
impl Client for LineLog<Recorder, 12> {
    fn call(&mut self, call: &Call<'_>, line: &mut Line) {
        match call.word {
            "log" | "log_text" | "log_broken" => log(self, call, line),
            "log_each" => {
                let values = values_of(call.alloc, call.rest, line);
                line.value(log_each(self, "", &values));
            }
            "flush" => line.done(&self.flush()),
            _ => line.tell(Unplayed::NoCall),
        }
        line.column();
        line.word(if self.is_behind() { "behind" } else { "-" });
    }

    fn unwrap(self, columns: &Columns, line: &mut Line) {
        columns.show_ended(&self.into_inner(), line);
    }
}

pub fn lend(name: &str, words: &str, player: &mut Player<'_, '_>) -> Played<()> {
    let (device, journal) = new_device(player.alloc, words)?;
    match name {
        "FrameWriter" => {
            let writer = FrameWriter::<Recorder, 12>::new(device);
            play(writer, Columns::All(journal), player)
        }
        "FrameReader" => {
            let (reader, room) = (FrameReader::new(device), [0; 12]);
            play(Receiving { reader, room }, Columns::Calls(journal), player)
        }
        "LineLog" => {
            let log = LineLog::<Recorder, 12>::new(device);
            play(log, Columns::All(journal), player)
        }
        _ => Err(Unplayed::NoStream),
    }
}
