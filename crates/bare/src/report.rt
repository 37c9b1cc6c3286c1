//! A report of readings, and the line of an event, printed through a buffer.
ghost use Rattle.std.specs.Prelude.{◌≡◌, [], OnOk};
ghost use Rattle.no_std_io2.specs.Moves.{Moves};
ghost use Rattle.bare.specs.Report.{report, event_line};
ghost use Rattle.bare.specs.Kept.{PrintsOrNot};

use crate::REFUSED;
use crate::decimal::Decimal;
use crate::kept::append;
use crate::queue::Queue;
use no_std_io2::io::{LineWriter, Result, Write};

// Prints a line for each reading.
fn print<W: Write>(w: &mut W, readings: &[u32]) -> Result<()>
    ensures text { OnOk result (Moves (W.told w.old) (report readings.now) [] (W.told w.new)) }
    ensures empty { OnOk result ((W.told w.new).held ≡ []) }
{
    'readings: for i in 0..readings.len() {
        let reading = readings[i];
        let (at, shown) = (
            Decimal { value: i as u64 },
            Decimal {
                value: reading as u64,
            },
        );
        write!(w, "sensor {at} = {shown}\n")?;
    }
    w.flush()
}

/// Puts a line for each reading, such as `sensor 0 = 17`, behind the bytes that wait for the port. The kept bytes
/// go first.
///
/// Returns [`DONE`](crate::DONE) if the port has all lines. Returns [`FULL`](crate::FULL) if they do not fit; then only
/// kept bytes were sent. Returns [`REFUSED`] if the lines have more than 64 bytes; then nothing has changed. That it
/// returns `REFUSED` only then is tested, and not promised.
#[unsafe(no_mangle)]
pub extern "C" fn bare_report(kept: &mut Queue, port: &mut Queue, readings: &[u32]) -> u32
    ensures { PrintsOrNot (report readings.now) kept.old port.old result kept.new port.new }
{
    let mut w = LineWriter::<Queue, 32>::new(Queue::new());
    if print(&mut w, readings).is_err() {
        return REFUSED;
    }
    append(w.get_ref(), kept, port)
}

// Prints the line of an event.
fn print_event<W: Write>(w: &mut W, number: u32) -> Result<()>
    ensures text { OnOk result (Moves (W.told w.old) (event_line number) [] (W.told w.new)) }
    ensures empty { OnOk result ((W.told w.new).held ≡ []) }
{
    let shown = Decimal {
        value: number as u64,
    };
    write!(w, "event {shown}\n")?;
    w.flush()
}

/// Puts the line `event 17` behind the bytes that wait for the port. The kept bytes go first.
///
/// Returns [`DONE`](crate::DONE) if the port has the whole line. Returns [`FULL`](crate::FULL) if it does not fit; then
/// only kept bytes were sent. That it never returns [`REFUSED`] is tested, and not promised.
#[unsafe(no_mangle)]
pub extern "C" fn bare_event(kept: &mut Queue, port: &mut Queue, number: u32) -> u32
    ensures { PrintsOrNot (event_line number) kept.old port.old result kept.new port.new }
{
    let mut w = LineWriter::<Queue, 32>::new(Queue::new());
    if print_event(&mut w, number).is_err() {
        return REFUSED;
    }
    append(w.get_ref(), kept, port)
}
