//! Three examples: [`log_reading`] makes a record by hand, [`log_each`] logs again what was lost, and [`log_readings`] does
//! so by the macro `info!`.
ghost use Rattle.std.specs.{Prelude.{◌≡◌, ◌<◌, ◌≤◌, ◌^◌, ◌++◌, Some, length}, List.{flat_map}};
ghost use Rattle.line_log.specs.Log.{LogsText};
ghost use Rattle.log_sink.specs.Readings.{LogsReadings, TriesReading, kept_of, sensor_line, sensor_text};
ghost use Rattle.log_sink.specs.Records.{AddsLine, logged_bytes};

use crate::{LineSink, log_record};
use line_log::LineLog;
use log::{Level, Metadata, Record, info};
use no_std_io2::io::{Result, Write};

/// Logs a reading of a sensor as the line `[INFO  SENSOR] N`.
///
/// # Errors
/// Returns the errors of [`log_record`].
pub fn log_reading<W: Write + Drop, const S: usize>(
    lines: &mut LineLog<W, S>,
    sensor: &str,
    reading: u32,
) -> Result<()>
    requires in_memory { S < 2 ^ 63 }
    ensures adds { AddsLine W.told (Some (sensor_text sensor.now reading)) lines.old result lines.new }
    ensures logs { LogsText W.Write (Some (sensor_text sensor.now reading)) lines.old result lines.new }
{
    let metadata = Metadata::new(Level::Info, sensor);
    let record = Record::new(metadata, reading, (), ());
    log_record(lines, &record)
}

// Logs a reading, and once more if it was lost. Returns whether it was logged.
fn is_logged<W: Write + Drop, const S: usize>(
    lines: &mut LineLog<W, S>,
    sensor: &str,
    reading: u32,
) -> bool
    requires in_memory { S < 2 ^ 63 }
    ensures tries { TriesReading W.Write sensor.now reading lines.old result lines.new }
    ensures adds { logged_bytes W.told lines.new
        ≡ logged_bytes W.told lines.old ++ flat_map (sensor_line sensor.now) (kept_of result reading) }
{
    match log_reading(lines, sensor, reading) {
        Ok(()) => true,
        Err(_) => log_reading(lines, sensor, reading).is_ok(),
    }
}

/// Logs each reading of a sensor, and one that was lost once more. Returns how many readings were lost twice.
///
/// Nothing of a reading that was lost was accepted, so each line that was logged stands there once.
pub fn log_each<W: Write + Drop, const S: usize>(
    lines: &mut LineLog<W, S>,
    sensor: &str,
    readings: &[u32],
) -> usize
    requires in_memory { S < 2 ^ 63 }
    ensures { LogsReadings W.Write sensor.now lines.old readings.now result lines.new }
{
    let mut lost = 0;
    'readings: for reading in readings {
        if !is_logged(lines, sensor, *reading) {
            lost += 1;
        }
    }
    lost
}

// Logs a reading to a sink, and returns whether it was logged. An error that the sink kept before does not count.
fn is_taken<W: Write + Drop, const S: usize>(
    sink: &LineSink<W, S>,
    sensor: &str,
    reading: u32,
) -> bool {
    let before = sink.lost();
    info!(sink; target: sensor, "{}", reading);
    sink.lost() == before
}

/// Does the same as [`log_each`] with a sink.
pub fn log_readings<W: Write + Drop, const S: usize>(
    sink: &LineSink<W, S>,
    sensor: &str,
    readings: &[u32],
) -> usize
    // No contract knows what a sink holds.
    ensures { result ≤ length readings.now }
{
    let mut lost = 0;
    'readings: for reading in readings {
        if !is_taken(sink, sensor, *reading) && !is_taken(sink, sensor, *reading) {
            lost += 1;
        }
    }
    lost
}
