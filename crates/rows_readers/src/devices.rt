// The devices of a group, on one journal, and the columns of its rows.
use crate::levels::Levels;
use rows_play::prelude::*;
use std::alloc::Global;

// The columns after a call's result and the bytes that it gave.
#[derive(Clone, Copy, PartialEq)]
pub enum Columns {
    Answers,
    // The calls that reached the devices.
    Calls,
    // What each level holds or has left to give, and these calls.
    Levels,
    // The state of each level of a stream in memory, including the bytes behind of a buffer and the position of
    // a cursor.
    Memory,
}

// What a row takes: by a call of its own, or by `next` a byte, a piece or a line.
#[derive(Clone, Copy)]
pub enum Items {
    Calls,
    Bytes,
    Pieces,
    Lines,
}

#[derive(Clone, Copy)]
pub struct Devices<'j> {
    pub alloc: Global,
    pub columns: Columns,
    pub items: Items,
    // What stands after a row's `new`.
    pub words: &'j str,
    pub journal: &'j Notes,
}

impl<'j> Devices<'j> {
    pub fn recorder(&self, name: ReaderName) -> Played<Recorder> {
        Ok(Recorder::new(self.alloc, self.journal.clone()?, name))
    }

    pub fn first(&self) -> Played<Recorder> {
        self.recorder(ReaderName::Only)
    }

    // Makes a device that notes the name of each call.
    pub fn noted(&self) -> Played<Noted<Recorder>> {
        Ok(Noted::new(self.first()?, self.journal.clone()?))
    }

    // Prints the columns after a call.
    pub fn show<T: Levels>(&self, tower: &T, line: &mut Line) {
        if matches!(self.columns, Columns::Levels | Columns::Memory) {
            tower.show(self.columns, line);
        }
        self.show_calls(line);
    }

    // Prints the calls that reached the devices, if there are devices.
    pub fn show_calls(&self, line: &mut Line) {
        if matches!(self.columns, Columns::Calls | Columns::Levels) {
            show_calls(self.journal, line);
        }
    }

    // Returns what parts pieces: a comma, or in streams in memory a `3`.
    pub fn delim(&self) -> u8 {
        match self.columns {
            Columns::Memory => b'3',
            _ => b',',
        }
    }
}
