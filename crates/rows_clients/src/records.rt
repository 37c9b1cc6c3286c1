// Records of the crate `log`, of which a sink makes lines of a log, over a device that notes its calls, through 32 bytes.
//
// A row is a record, `LEVEL TEXT`, or a call; then the error that was taken, or whether the unwrapped log is behind, how
// many records are lost, the bytes out and the calls that reached the device. `pairs TEXT` and `span TEXT` have a pair and
// a span too. The value of `broken` fails as it is printed; that of `nested` logs a record meanwhile, and that of
// `flushing` flushes the sink. `log_readings` shows how many of its readings were lost twice.
use crate::client::{Client, Columns, new_device, play};
use crate::frames::Broken;
use crate::from_examples::values_of;
use line_log::LineLog;
use log::{Level, Log, info};
use log_sink::{LineSink, log_readings};
use rows_play::prelude::*;
use std::fmt;

type Sink = LineSink<Recorder, 32>;

// A value that logs a record as it is printed.
#[derive(Drop)]
struct Nested<'a>(&'a Sink);

impl<'a> fmt::Display for Nested<'a> {
    fn fmt<W: fmt::Write>(&self, f: &mut fmt::Formatter<W>) -> fmt::Result {
        info!(self.0; target: "io", "inner");
        f.write_str("outer")
    }
}

// Logs a record whose value logs one to the inner sink.
fn log_nested(sink: &Sink, inner: &Sink) {
    info!(sink; target: "io", "{}", Nested(inner));
}

// A value that flushes a sink as it is printed.
#[derive(Drop)]
struct Flushing<'a>(&'a Sink);

impl<'a> fmt::Display for Flushing<'a> {
    fn fmt<W: fmt::Write>(&self, f: &mut fmt::Formatter<W>) -> fmt::Result {
        self.0.flush();
        f.write_str("outer")
    }
}

// Logs a record whose value flushes the inner sink.
fn log_flushing(sink: &Sink, inner: &Sink) {
    info!(sink; target: "io", "{}", Flushing(inner));
}

// Logs the record of a row. The word is a level, or one of those above.
fn log_record(sink: &Sink, call: &Call<'_>, text: &str, line: &mut Line) {
    match call.word {
        "pairs" => info!(sink; target: "io", n = 5; "{text}"),
        "span" => info!(sink.span("job").with("id", 7u32); target: "io", "{text}"),
        "broken" => info!(sink; target: "io", "{}", Broken),
        "nested" => log_nested(sink, sink),
        "flushing" => log_flushing(sink, sink),
        word => match word.parse::<Level>() {
            Ok(level) => log::log!(sink; target: "io", level, "{text}"),
            Err(_) => line.tell(Unplayed::NoCall),
        },
    }
}

// Prints the error that is kept, or a dash.
fn show_error(sink: &Sink, line: &mut Line) {
    match sink.take_error() {
        Some(e) => line.error(&e),
        None => line.word("-"),
    }
}

// Logs the record of a row, or flushes.
fn make_call(sink: &Sink, call: &Call<'_>, line: &mut Line) {
    match std::str::from_utf8(&call.bytes) {
        Ok(_) if call.word == "flush" => sink.flush(),
        Ok(text) => log_record(sink, call, text, line),
        Err(_) => line.tell(Unplayed::NoWord),
    }
    line.word("-");
}

impl Client for Sink {
    fn call(&mut self, call: &Call<'_>, line: &mut Line) {
        match call.word {
            "take_error" => show_error(self, line),
            "log_readings" => {
                let values = values_of(call.alloc, call.rest, line);
                line.value(log_readings(self, "io", &values));
            }
            _ => make_call(self, call, line),
        }
    }

    fn show(&self, line: &mut Line) {
        line.value_column(self.lost());
    }

    fn unwrap(self, columns: &Columns, line: &mut Line) {
        let lost = self.lost();
        let lines = self.into_inner();
        line.word(if lines.is_behind() { "behind" } else { "-" });
        line.value_column(lost);
        columns.show(line);
    }
}

pub fn lend(words: &str, player: &mut Player<'_, '_>) -> Played<()> {
    let (device, journal) = new_device(player.alloc, words)?;
    let sink = Sink::new(LineLog::new(device));
    play(sink, Columns::All(journal), player)
}
