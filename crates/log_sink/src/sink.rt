//! [`LineSink`], a sink of the crate `log`.
ghost use Rattle.std.specs.Prelude.{◌<◌, ◌^◌, true, [], Some};

use crate::log_record;
use line_log::LineLog;
use log::kv::Source;
use log::span::Spans;
use log::{Log, Metadata, Record};
use no_std_io2::io::{Error, Result, Write};
use std::cell::{Cell, RefCell};
use std::fmt::Display;

/// Logs each record as a line by [`log_record`]. It takes records of every level; `log::Logged` in front of it chooses
/// some. It is for one thread.
///
/// No record is lost in silence: a record that is not logged is counted by `lost`, and its error is kept. Its values are
/// printed while the log is in use, so a record that such a value logs to this same sink is lost.
///
/// Dropping it tries once to send the held bytes, and ignores a fault.
#[derive(Drop)]
pub struct LineSink<W: Write + Drop, const S: usize> {
    lines: RefCell<LineLog<W, S>>,
    // The number of the records that were lost.
    lost: Cell<u64>,
    // The first error since the last one was taken.
    error: Cell<Option<Error>>,
    ghost in_memory: { S < 2 ^ 63 },
}

impl<W: Write + Drop, const S: usize> LineSink<W, S> {
    /// Makes a sink that goes to this log.
    pub fn new(lines: LineLog<W, S>) -> LineSink<W, S>
        requires in_memory { S < 2 ^ 63 }
    {
        LineSink {
            lines: RefCell::new(lines),
            lost: Cell::new(0),
            error: Cell::new(None),
        }
    }

    /// Takes the first error since the last call. It is that of a record, of which nothing was accepted, so that it may be
    /// logged again; or it is that of a `flush`.
    pub fn take_error(&self) -> Option<Error> {
        self.error.take()
    }

    /// Returns how many records were not logged, at most `u64::MAX`. One that is logged again is not taken off.
    pub fn lost(&self) -> u64 {
        self.lost.get()
    }

    /// Returns the log. It makes no call of the writer.
    pub fn into_inner(self) -> LineLog<W, S> {
        let LineSink {
            lines,
            lost: _,
            error: _,
        } = self;
        lines.into_inner()
    }

    // Logs a record, if the log is not in use.
    fn try_log<D: Display, K: Source, P: Spans>(&self, record: &Record<'_, D, K, P>) -> Result<()> {
        match self.lines.try_borrow_mut() {
            Ok(mut lines) => log_record(&mut lines, record),
            Err(_) => Err(in_use()),
        }
    }

    // Flushes the log, if it is not in use.
    fn try_flush(&self) -> Result<()> {
        match self.lines.try_borrow_mut() {
            Ok(mut lines) => lines.flush(),
            Err(_) => Err(in_use()),
        }
    }

    // Keeps an error, if none is kept.
    fn keep(&self, error: Error) {
        self.error.set(self.error.take().or(Some(error)));
    }
}

fn in_use() -> Error {
    Error::other("the sink is in use")
}

impl<W: Write + Drop, const S: usize> Log for LineSink<W, S> {
    ghost enables = { λ _ _ _. Some true };

    ghost target_of = { λ _. Some [] };

    fn enabled(&self, _metadata: &Metadata<'_>) -> bool {
        true
    }

    /// Logs a record as a line. If it fails, the record is counted as lost, and its error is kept.
    fn log<D: Display, K: Source, P: Spans>(&self, record: &Record<'_, D, K, P>) {
        if let Err(e) = self.try_log(record) {
            self.lost.set(self.lost.get().saturating_add(1));
            self.keep(e);
        }
    }

    /// Sends all held bytes, and flushes the writer below. If that fails, its error is kept, and a later call continues.
    fn flush(&self) {
        if let Err(e) = self.try_flush() {
            self.keep(e);
        }
    }

    fn target(&self) -> &str {
        ""
    }
}
