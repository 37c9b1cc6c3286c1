//! [`LineSink`], a sink of the crate `log` over a [`LineLog`]: each record becomes one line of any writer, whole or not at
//! all. Nothing is allocated. After an error nothing of the record was accepted, so it may be logged again.
//!
//! ```rust
//! let before = sink.lost();
//! info!(sink; target: sensor, "{}", reading);
//! sink.lost() == before
//! ```
#![tactic(auto)]

ghost use Rattle.std.specs.Prelude.{◌<◌, ◌^◌};
ghost use Rattle.log.specs.Line.{record_line};
ghost use Rattle.line_log.specs.Log.{LogsText};
ghost use Rattle.log_sink.specs.Records.{AddsLine};

mod readings;
mod sink;

use line_log::LineLog;
use log::kv::Source;
use log::span::Spans;
use log::{Line, Record};
use no_std_io2::io::{Result, Write};
pub use readings::{log_each, log_reading, log_readings};
pub use sink::LineSink;
use std::fmt::Display;

/// Logs a record as one line, its text followed by a newline. The text is the one that the sinks of `log` print:
/// `[INFO  target] span{key=value}: message key=value`. After `Ok` the whole line was accepted, and the writer below has
/// all of it; or a fault came, and the end of it, or all, is held until the next call, which sends it first.
///
/// # Errors
/// Returns the errors of [`LineLog::log_text`]: `InvalidInput` if the line is not shorter than the log's buffer, or else
/// if its text has a newline in it; `Other`, `formatter error`, if the `fmt` of a value failed; and the fault of the
/// sending of earlier lines, if there is no room beside them. After each error nothing of this line was accepted, so the
/// record may be logged again.
pub fn log_record<W: Write + Drop, const S: usize, D: Display, K: Source, P: Spans>(
    lines: &mut LineLog<W, S>,
    record: &Record<'_, D, K, P>,
) -> Result<()>
    requires in_memory { S < 2 ^ 63 }
    ensures adds { AddsLine W.told (record_line D.output K.pairs P.scopes «record».now) lines.old result lines.new }
    ensures logs { LogsText W.Write (record_line D.output K.pairs P.scopes «record».now) lines.old result lines.new }
{
    lines.log_text(Line::new(record))
}
