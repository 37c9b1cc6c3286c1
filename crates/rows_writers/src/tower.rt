// Towers of writers over a device, level by level.
use crate::runs::Parts;
use examples::{Narrow, Numbered};
use io_bench::{Faulty, Tally};
use no_std_io2::io::{BufWriter, Error, IntoInnerError, LineWriter, Sink, Write};
use rows_play::prelude::*;

/// A device that notes the name of each call.
pub type Device = Noted<Recorder>;

/// A boxed object that writes.
pub type Object = Box<dyn Write + Drop>;

/// What a column of a tower shows.
#[derive(Clone, Copy)]
pub enum Column {
    /// The bytes that the device took, if it keeps them itself.
    Taken,
    /// The bytes that each level holds.
    Held,
}

/// A writer over a device.
pub trait Tower: Write + Drop {
    /// Prints a column of each level that has this part, the outer one first.
    fn show(&self, _part: Column, _line: &mut Line) {}

    /// Adds what stands in it: the bytes out, and then those that are held, the inner level's first.
    fn see(&self, _parts: &mut Parts, _line: &mut Line) {}

    /// Makes a call of the outer level that a device does not have: `below TEXT` writes to the level below, and
    /// `into_inner` unwraps the outer level and puts an empty one in its place. If that fails, the tower is kept; for
    /// `into_error` only the error is.
    fn call_level(_tower: &mut Option<Self>, _call: &Call<'_>, line: &mut Line)
    where
        Self: Sized,
    {
        line.tell(Unplayed::NoStream);
    }
}

impl Tower for Recorder {}

impl Tower for Device {}

impl Tower for Tally<Device> {}

impl Tower for Numbered<Device> {}

impl Tower for Object {}

impl Tower for Vec<u8> {
    fn show(&self, part: Column, line: &mut Line) {
        if let Column::Taken = part {
            line.bytes_column(self);
        }
    }

    fn see(&self, parts: &mut Parts, line: &mut Line) {
        parts.out(self, line);
    }
}

impl Tower for Faulty<Vec<u8>> {
    fn show(&self, part: Column, line: &mut Line) {
        self.get_ref().show(part, line);
    }

    fn see(&self, parts: &mut Parts, line: &mut Line) {
        self.get_ref().see(parts, line);
    }
}

impl Tower for Narrow {
    fn show(&self, part: Column, line: &mut Line) {
        self.taken.show(part, line);
    }
}

// In place of the bytes, which no sink keeps, the number of the writes.
impl Tower for Tally<Sink> {
    fn show(&self, part: Column, line: &mut Line) {
        if let Column::Taken = part {
            line.value_column(self.writes());
        }
    }
}

impl<W: Tower> Tower for Box<W> {
    fn show(&self, part: Column, line: &mut Line) {
        W::show(self, part, line);
    }
}

// Prints what a failed `into_inner` contains: the error, and what the whole prints.
fn show_refusal<W>(refused: &IntoInnerError<W>, line: &mut Line) {
    line.error(refused.error());
    line.word(" (");
    line.value(refused);
    line.word(")");
}

// Prints how an `into_inner` ended. Returns what is in the tower, or the tower itself if it is kept. What a refusal
// contains is taken by one call of a buffer, and by another of a buffer of lines.
fn end<W, T: Drop>(
    ended: Result<W, IntoInnerError<T>>,
    is_lines: bool,
    call: &Call<'_>,
    line: &mut Line,
) -> Result<W, Option<T>> {
    match ended {
        Ok(inner) => {
            line.word("ok");
            Ok(inner)
        }
        Err(e) if call.word == "into_inner" => {
            show_refusal(&e, line);
            Err(Some(if is_lines {
                e.into_parts().1
            } else {
                e.into_inner()
            }))
        }
        Err(e) => {
            line.error(&if is_lines {
                e.into_error()
            } else {
                Error::from(e)
            });
            Err(None)
        }
    }
}

impl<W: Tower, const S: usize> Tower for BufWriter<W, S> {
    fn show(&self, part: Column, line: &mut Line) {
        if let Column::Held = part {
            line.bytes_column(self.buffer());
        }
        self.get_ref().show(part, line);
    }

    fn see(&self, parts: &mut Parts, line: &mut Line) {
        self.get_ref().see(parts, line);
        parts.held(self.buffer(), false, line);
    }

    fn call_level(tower: &mut Option<Self>, call: &Call<'_>, line: &mut Line) {
        match (call.word, tower.take()) {
            ("below", Some(mut writer)) => {
                line.done(&writer.get_mut().write_all(&call.bytes));
                *tower = Some(writer);
            }
            (_, Some(writer)) => match end(writer.into_inner(), false, call, line) {
                Ok(inner) => *tower = Some(BufWriter::new(inner)),
                Err(kept) => *tower = kept,
            },
            _ => {}
        }
    }
}

impl<W: Tower, const S: usize> Tower for LineWriter<W, S> {
    fn show(&self, part: Column, line: &mut Line) {
        if let Column::Held = part {
            line.bytes_column(self.buffer());
        }
        self.get_ref().show(part, line);
    }

    fn see(&self, parts: &mut Parts, line: &mut Line) {
        self.get_ref().see(parts, line);
        parts.held(self.buffer(), true, line);
    }

    fn call_level(tower: &mut Option<Self>, call: &Call<'_>, line: &mut Line) {
        match (call.word, tower.take()) {
            ("below", Some(mut writer)) => {
                line.done(&writer.get_mut().write_all(&call.bytes));
                *tower = Some(writer);
            }
            (_, Some(writer)) => match end(writer.into_inner(), true, call, line) {
                Ok(inner) => *tower = Some(LineWriter::new(inner)),
                Err(kept) => *tower = kept,
            },
            _ => {}
        }
    }
}
