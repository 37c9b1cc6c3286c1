// The state of each level of a reader, the outer one first, in a column for each level that
// has one.
use crate::devices::Columns;
use crate::in_memory::show_left;
use examples::Numbered;
use io_bench::{Feed, Tally};
use no_std_io2::io::{BufRead, BufReader, Chain, Cursor, Read, Repeat, Take};
use rows_play::prelude::*;

pub trait Levels {
    fn show(&self, _columns: Columns, _line: &mut Line) {}

    // Sets the limit, and returns whether there is one.
    fn limit(&mut self, _limit: usize) -> bool {
        false
    }
}

impl Levels for Recorder {}

impl Levels for Noted<Recorder> {}

impl Levels for Tally<Noted<Recorder>> {}

impl Levels for Numbered<Noted<Recorder>> {}

impl Levels for Repeat {}

// A boxed object shows nothing.
impl Levels for Box<dyn Read + Drop> {}

impl Levels for Box<dyn BufRead + Drop> {}

impl<R: Levels> Levels for Box<R> {
    fn show(&self, columns: Columns, line: &mut Line) {
        R::show(self, columns, line);
    }
}

// The bytes that are left.
impl<'a> Levels for &'a [u8] {
    fn show(&self, _columns: Columns, line: &mut Line) {
        line.bytes_column(self);
    }
}

impl<'a> Levels for Tally<&'a [u8]> {
    fn show(&self, columns: Columns, line: &mut Line) {
        self.get_ref().show(columns, line);
    }
}

// The events that are left.
impl Levels for Feed {
    fn show(&self, _columns: Columns, line: &mut Line) {
        line.column();
        show_left(self.left(), line);
    }
}

// The position of a text in memory.
impl Levels for Cursor<Vec<u8>> {
    fn show(&self, columns: Columns, line: &mut Line) {
        if columns == Columns::Memory {
            line.value_column(self.position());
        }
    }
}

impl<A: Levels + Drop, B: Levels + Drop> Levels for Chain<A, B> {
    fn show(&self, columns: Columns, line: &mut Line) {
        let (first, second) = self.get_ref();
        first.show(columns, line);
        second.show(columns, line);
    }

    fn limit(&mut self, limit: usize) -> bool {
        let (first, _second) = self.get_mut();
        first.limit(limit)
    }
}

// The limit.
impl<R: Levels + Drop> Levels for Take<R> {
    fn show(&self, columns: Columns, line: &mut Line) {
        line.value_column(self.limit());
        self.get_ref().show(columns, line);
    }

    fn limit(&mut self, limit: usize) -> bool {
        self.set_limit(limit as u64);
        true
    }
}

// The held bytes, and in memory those behind.
impl<R: Levels + Drop, const S: usize> Levels for BufReader<R, S> {
    fn show(&self, columns: Columns, line: &mut Line) {
        if columns == Columns::Memory {
            line.bytes_column(self.behind());
        }
        line.bytes_column(self.buffer());
        self.get_ref().show(columns, line);
    }
}
