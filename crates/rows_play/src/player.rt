// The player of rows: it plays the files that a program's arguments name. The program makes the stream that a table names,
// a new one for each group, and lends it to the player.
use super::calls::Call;
use super::line::{Line, Played, Unplayed, cut};
use std::alloc::Global;
use std::io::{Error, ErrorKind, Result};
use std::process::ExitCode;
use std::{env, fs};

/// A stream on which rows make calls.
pub trait Stream {
    /// Makes a call, and prints its result and the state afterwards, in columns.
    fn play(&mut self, call: &Call<'_>, line: &mut Line);
}

/// The streams of a program's tables.
pub trait Streams {
    /// Makes the stream of this name, over a device with the results after `new`, and lends it to the player. It fails
    /// if there is no such stream.
    fn lend(name: &str, words: &str, player: &mut Player<'_, '_>) -> Played<()>;
}

// How many rows were played and how they came out, and the place in the file.
#[derive(Clone, Copy)]
struct Count<'a> {
    file: &'a str,
    // The number of the line that is read, from 1.
    line: u64,
    // Tables, once for each stream that they name.
    tables: u64,
    groups: u64,
    rows: u64,
    // Rows that came out differently.
    differing: u64,
    // Lines that say nothing that can be played.
    malformed: u64,
}

/// A group of rows that waits for its stream.
#[derive(Drop)]
pub struct Player<'r, 'a> {
    pub alloc: Global,
    rows: &'r str,
    count: Count<'a>,
    // The rows that came out differently.
    differing: Line,
}

impl<'r, 'a> Player<'r, 'a> {
    /// Plays the rows on a stream. It stops at a row that cannot be played. The result is `Ok`, so that a stream's
    /// maker can end with this call.
    pub fn play<S: Stream>(&mut self, stream: &mut S) -> Played<()> {
        self.count.groups = self.count.groups.wrapping_add(1);
        'rows: for row in self.rows.lines() {
            self.count.line = self.count.line.wrapping_add(1);
            if row.is_empty() || row.starts_with("#") {
                continue;
            }
            let mut line = Line::new(self.alloc);
            play_row(self.alloc, stream, row, &mut line);
            self.compare(row, &line);
            if line.is_malformed() {
                break;
            }
        }
        Ok(())
    }

    // Counts a row, and keeps it for printing if it came out differently or cannot be played.
    fn compare(&mut self, row: &str, line: &Line) {
        self.count.rows = self.count.rows.wrapping_add(1);
        if line.is_cut() {
            self.differing.cut();
        }
        if line.as_str() == row && !line.is_malformed() {
            return;
        }
        self.count.differing = self.count.differing.wrapping_add(1);
        let (file, number, got) = (self.count.file, self.count.line, line.as_str());
        match format!(in self.alloc; "{file}:{number}\n  wanted: {row}\n     got: {got}\n") {
            Ok(text) => self.differing.word(text.as_str()),
            Err(_) => self.differing.cut(),
        }
    }
}

// Makes the call of a row. If there is no such call, the line says why.
fn play_row<S: Stream>(alloc: Global, stream: &mut S, row: &str, line: &mut Line) {
    let Some((call, _)) = row.split_once(" | ") else {
        line.tell(Unplayed::NoRow);
        return;
    };
    line.word(call);
    line.column();
    match Call::parse(alloc, call) {
        Ok(call) => stream.play(&call, line),
        Err(fault) => line.tell(fault),
    }
}

// Returns the number of lines of a text.
fn lines_of(text: &str) -> u64 {
    let mut lines: u64 = 0;
    'lines: for _line in text.split("\n") {
        lines = lines.wrapping_add(1);
    }
    lines
}

impl<'a> Count<'a> {
    // Prints what is wrong with a line, and counts it. A failed allocation is `OutOfMemory`, and ends the run.
    fn tell(&mut self, rt: &HostRuntime, fault: Unplayed, line: &str) -> Result<()> {
        if matches!(fault, Unplayed::Memory) {
            return Err(Error::from(ErrorKind::OutOfMemory));
        }
        self.malformed = self.malformed.wrapping_add(1);
        println!(rt; "{}:{}\n     {fault:?}: {line}", self.file, self.line)
    }

    // Plays a group: it makes the stream, and then plays the rows.
    fn play_rows<S: Streams>(&mut self, rt: &HostRuntime, name: &str, group: &str) -> Result<()> {
        let (words, rows) = cut(group, "\n");
        let mut player = Player {
            alloc: rt.alloc(),
            rows,
            count: *self,
            differing: Line::new(rt.alloc()),
        };
        let lent = S::lend(name, words.trim(), &mut player);
        *self = player.count;
        match lent {
            Err(fault) => self.tell(rt, fault, words),
            Ok(()) if player.differing.is_cut() => self.tell(rt, Unplayed::Memory, words),
            Ok(()) => print!(rt; "{}", player.differing.as_str()),
        }
    }

    // Plays the groups of a table on a stream, each on a new one.
    fn play_groups<S: Streams>(&mut self, rt: &HostRuntime, name: &str, table: &str) -> Result<()> {
        'groups: for (i, group) in table.split("\nnew").enumerate() {
            let next = self.line.wrapping_add(lines_of(group));
            if i > 0 {
                self.play_rows::<S>(rt, name, group)?;
            }
            self.line = next;
        }
        Ok(())
    }

    // Plays a table on each stream that its head names.
    fn play_table<S: Streams>(&mut self, rt: &HostRuntime, table: &str) -> Result<()> {
        let line = self.line;
        let (names, _) = cut(table, "\n");
        'streams: for name in names.split(", ") {
            let groups = self.groups;
            self.tables = self.tables.wrapping_add(1);
            self.play_groups::<S>(rt, name, table)?;
            self.line = line;
            if self.groups == groups {
                self.tell(rt, Unplayed::NoRow, name)?;
            }
        }
        Ok(())
    }

    // Plays a file: tables that begin with a line `stream NAME`, or with the names of several.
    fn play_text<S: Streams>(&mut self, rt: &HostRuntime, text: &str) -> Result<()> {
        'tables: for (i, table) in text.split("\nstream ").enumerate() {
            let next = self.line.wrapping_add(lines_of(table));
            if i > 0 {
                self.play_table::<S>(rt, table)?;
            }
            self.line = next;
        }
        if self.rows == 0 {
            return self.tell(rt, Unplayed::NoRow, "");
        }
        Ok(())
    }
}

// Plays a file, and prints its counts. Returns whether there were rows, and each came out as it says.
fn play_file<S: Streams>(rt: &HostRuntime, file: &str) -> Result<bool> {
    let text = fs::read_to_string(rt, file)?;
    let mut count = Count {
        file,
        line: 1,
        tables: 0,
        groups: 0,
        rows: 0,
        differing: 0,
        malformed: 0,
    };
    count.play_text::<S>(rt, text.as_str())?;
    let (tables, groups, rows) = (count.tables, count.groups, count.rows);
    println!(rt; "{file}: {tables} tables, {groups} groups, {rows} rows")?;
    Ok(rows > 0 && count.differing == 0 && count.malformed == 0)
}

fn play_arguments<S: Streams>(rt: &HostRuntime) -> Result<bool> {
    let mut is_met = true;
    'files: for file in env::args(rt)?.skip(1) {
        is_met = play_file::<S>(rt, file.as_str())? && is_met;
    }
    Ok(is_met)
}

/// Plays the files that the arguments name. For each it prints how many tables, groups and rows it has, and each row
/// that came out differently. The status is 1 if a row came out differently, if a line or a file cannot be read, if a
/// file has no row, or if an allocation fails; the reason is printed to standard error.
pub fn play_files<S: Streams>(rt: &HostRuntime) -> ExitCode {
    match play_arguments::<S>(rt) {
        Ok(true) => ExitCode::SUCCESS,
        Ok(false) => ExitCode::FAILURE,
        Err(e) => {
            let _ = eprintln!(rt; "{e}");
            ExitCode::FAILURE
        }
    }
}
