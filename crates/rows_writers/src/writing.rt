// Towers of writers, played by rows of calls.
//
// The columns after a call are its result, the bytes that the device took, the held bytes of each level, the outer one
// first, and over a recorder the calls that reached it.
use crate::runs;
use crate::tower::{Column, Tower};
use no_std_io2::io::{Seek, Write};
use rows_play::prelude::*;

/// The columns after a result.
#[derive(Drop)]
pub enum Columns {
    /// The bytes that the device keeps, and those that are held.
    State,
    /// The bytes that the device of this journal took, those that are held at this many levels, and
    /// the calls.
    All(Notes, usize),
    /// Only the calls.
    Calls(Notes),
    /// None: a run prints whether it keeps to the laws.
    Laws,
}

// A tower until it is dropped. Besides the calls of a writer and of a level, there are `run CALLS`, `expect RESULTS`, which
// sets the device's next results, and `drop`, which ends the tower.
#[derive(Drop)]
struct Writing<T: Drop> {
    tower: Option<T>,
    columns: Columns,
}

/// Makes a call of a writer that seeks.
pub fn make_any_call<T: Write + Seek>(stream: &mut T, call: &Call<'_>, line: &mut Line) {
    if !make_seek(stream, call, line) {
        make_call(stream, call, line);
    }
}

/// Plays the rows on a tower.
pub fn play<T: Tower>(tower: T, columns: Columns, player: &mut Player<'_, '_>) -> Played<()> {
    player.play(&mut Writing {
        tower: Some(tower),
        columns,
    })
}

impl<T: Tower> Writing<T> {
    fn expect(&self, call: &Call<'_>, line: &mut Line) {
        let Columns::All(journal, _) = &self.columns else {
            line.tell(Unplayed::NoCall);
            return;
        };
        match expect(call.alloc, journal, call.rest) {
            Ok(()) => line.word("-"),
            Err(fault) => line.tell(fault),
        }
    }

    // Makes a call, and prints its result.
    fn call(&mut self, call: &Call<'_>, line: &mut Line) {
        let Some(tower) = &mut self.tower else {
            line.tell(Unplayed::NotReady);
            return;
        };
        match call.word {
            "expect" => self.expect(call, line),
            "run" if matches!(self.columns, Columns::Laws) => {
                runs::call_lawful_run(tower, call, line);
            }
            "run" => runs::call_run(tower, call, line),
            "below" | "into_inner" | "into_error" => T::call_level(&mut self.tower, call, line),
            "drop" => {
                self.tower = None;
                line.word("-");
            }
            _ => make_call(tower, call, line),
        }
    }

    // Prints the columns after the result.
    fn show(&self, line: &mut Line) {
        match &self.columns {
            Columns::State => {
                self.show_part(Column::Taken, 0, line);
                self.show_part(Column::Held, 0, line);
            }
            Columns::All(journal, levels) => {
                show_out(journal, line);
                self.show_part(Column::Held, *levels, line);
                show_calls(journal, line);
            }
            Columns::Calls(journal) => show_calls(journal, line),
            Columns::Laws => {}
        }
    }

    // Prints a column for each level. If the tower is gone, none holds anything.
    fn show_part(&self, part: Column, levels: usize, line: &mut Line) {
        if let Some(tower) = &self.tower {
            tower.show(part, line);
            return;
        }
        'levels: for _ in 0..levels {
            line.bytes_column(b"");
        }
    }
}

impl<T: Tower> Stream for Writing<T> {
    fn play(&mut self, call: &Call<'_>, line: &mut Line) {
        self.call(call, line);
        self.show(line);
    }
}

/// Plays the rows on a tower that seeks.
pub fn play_seeking<T: Tower + Seek>(
    tower: T,
    columns: Columns,
    player: &mut Player<'_, '_>,
) -> Played<()> {
    let tower = Some(tower);
    player.play(&mut Seeking {
        writing: Writing { tower, columns },
    })
}

// A tower that seeks, with the calls of a seeker.
#[derive(Drop)]
struct Seeking<T: Drop> {
    writing: Writing<T>,
}

impl<T: Tower + Seek> Seeking<T> {
    fn call(&mut self, call: &Call<'_>, line: &mut Line) {
        if let Some(tower) = &mut self.writing.tower {
            if make_seek(tower, call, line) {
                return;
            }
        }
        self.writing.call(call, line);
    }
}

impl<T: Tower + Seek> Stream for Seeking<T> {
    fn play(&mut self, call: &Call<'_>, line: &mut Line) {
        self.call(call, line);
        self.writing.show(line);
    }
}
