// Readers that are played by rows of calls. The columns after a call are its result, for a read the bytes that it gave,
// and those of the table.
ghost use Rattle.no_std_io2.specs.BufReader.{BufReaderFits};
ghost use Rattle.std.specs.Prelude.{◌<◌, ◌^◌};

use crate::devices::{Columns, Devices, Items};
use crate::levels::Levels;
use io_bench::Faulty;
use no_std_io2::io::{BufRead, BufReader, Bytes, Lines, Read, Result, Seek, Split, copy};
use rows_play::prelude::*;

// Prints a single byte, or a dash at the end.
fn show_byte(item: Option<Result<u8>>, line: &mut Line) {
    match item {
        None => line.word("-"),
        Some(Ok(byte)) => line.bytes(&[byte]),
        Some(Err(e)) => line.error(&e),
    }
}

// A `Read`.
#[derive(Drop)]
struct Reading<'j, T: Drop> {
    tower: T,
    devices: Devices<'j>,
}

impl<'j, T: Read + Levels + Drop> Stream for Reading<'j, T> {
    fn play(&mut self, call: &Call<'_>, line: &mut Line) {
        make_read(&mut self.tower, call, line);
        self.devices.show(&self.tower, line);
    }
}

// Sets the limit that a row says.
fn set_limit<T: Levels>(tower: &mut T, call: &Call<'_>, line: &mut Line) {
    if tower.limit(call.number(line)) {
        line.word("-");
    } else {
        line.tell(Unplayed::NoCall);
    }
}

/// Copies through S bytes to an empty vector that fails as acts say, `copy S ACTS`, and prints the result and the vector.
pub fn call_copy<R: Read>(r: &mut R, call: &Call<'_>, line: &mut Line) {
    let (size, words) = cut(call.rest, " ");
    let acts = match parse_list(call.alloc, words) {
        Ok(acts) => acts,
        Err(fault) => return line.tell(fault),
    };
    let mut to = Faulty::new(Vec::<u8>::new(call.alloc), acts);
    match size {
        "0" => line.answer(&copy::<_, _, 0>(r, &mut to)),
        "4" => line.answer(&copy::<_, _, 4>(r, &mut to)),
        _ => line.tell(Unplayed::NoCall),
    }
    line.bytes_column(to.get_ref());
}

// A `BufRead`. Besides its calls, `limit N` sets a limit, `next` gives a single byte, and `copy S ACTS` copies.
#[derive(Drop)]
struct Lending<'j, T: Drop> {
    tower: T,
    devices: Devices<'j>,
}

impl<'j, T: BufRead + Levels + Drop> Stream for Lending<'j, T> {
    fn play(&mut self, call: &Call<'_>, line: &mut Line) {
        match call.word {
            "limit" => set_limit(&mut self.tower, call, line),
            "next" => show_byte(self.tower.by_ref().bytes().next(), line),
            "copy" => call_copy(&mut self.tower, call, line),
            _ => make_lend(&mut self.tower, call, line),
        }
        self.devices.show(&self.tower, line);
    }
}

// A `BufRead` that seeks. It is borrowed `lent` times for each call but `limit N`.
#[derive(Drop)]
struct Seeking<'j, T: Drop> {
    tower: T,
    lent: usize,
    devices: Devices<'j>,
}

/// Makes the call of a row on a `BufRead` that seeks.
pub fn make_seeking_call<T: BufRead + Seek>(stream: &mut T, call: &Call<'_>, line: &mut Line) {
    if call.word == "read_exact_at" {
        make_read_at(stream, call, line);
    } else if !make_seek(stream, call, line) {
        make_lend(stream, call, line);
    }
}

// Makes the call of a row on a `BufRead` that seeks, borrowed once more.
fn make_lent_call<T: BufRead + Seek>(stream: &mut T, call: &Call<'_>, line: &mut Line) {
    make_seeking_call(&mut &mut *stream, call, line);
}

impl<'j, T: BufRead + Seek + Levels + Drop> Stream for Seeking<'j, T> {
    fn play(&mut self, call: &Call<'_>, line: &mut Line) {
        match self.lent {
            _ if call.word == "limit" => set_limit(&mut self.tower, call, line),
            0 => make_seeking_call(&mut self.tower, call, line),
            1 => make_lent_call(&mut self.tower, call, line),
            _ => make_lent_call(&mut &mut self.tower, call, line),
        }
        self.devices.show(&self.tower, line);
    }
}

// What gives single bytes, pieces or lines, by rows `next`. The columns after an item (a piece or a line with its kind in
// front) are the calls that reached the devices, or in memory the capacity of a piece or a line.
trait Next {
    /// Takes the next item, and prints it and the columns after it.
    fn show_next(&mut self, devices: &Devices<'_>, line: &mut Line);
}

impl<T: Read + Drop> Next for Bytes<T> {
    fn show_next(&mut self, devices: &Devices<'_>, line: &mut Line) {
        show_byte(self.next(), line);
        devices.show_calls(line);
    }
}

impl<T: BufRead + Drop> Next for Split<T> {
    fn show_next(&mut self, devices: &Devices<'_>, line: &mut Line) {
        show_item("piece ", self.next(), devices, line);
    }
}

impl<T: BufRead + Drop> Next for Lines<T> {
    fn show_next(&mut self, devices: &Devices<'_>, line: &mut Line) {
        let item = match self.next() {
            None => None,
            Some(Ok(text)) => Some(Ok(text.into_bytes())),
            Some(Err(e)) => Some(Err(e)),
        };
        show_item("line ", item, devices, line);
    }
}

// Prints a piece or a line, and the columns after it.
fn show_item(kind: &str, item: Option<Result<Vec<u8>>>, devices: &Devices<'_>, line: &mut Line) {
    let mut capacity = None;
    match item {
        None => line.word("-"),
        Some(Ok(bytes)) => {
            line.word(kind);
            line.bytes(&bytes);
            capacity = Some(bytes.capacity());
        }
        Some(Err(e)) => line.error(&e),
    }
    if devices.columns != Columns::Memory {
        devices.show_calls(line);
    } else if let Some(capacity) = capacity {
        line.value_column(capacity);
    } else {
        line.word(" | -");
    }
}

#[derive(Drop)]
struct Taking<'j, I: Drop> {
    items: I,
    devices: Devices<'j>,
}

impl<'j, I: Next + Drop> Stream for Taking<'j, I> {
    fn play(&mut self, call: &Call<'_>, line: &mut Line) {
        match call.word {
            "next" => self.items.show_next(&self.devices, line),
            _ => line.tell(Unplayed::NoCall),
        }
    }
}

// Plays the rows on the items of a reader.
fn play_items<I: Next + Drop>(
    items: I,
    devices: &Devices<'_>,
    player: &mut Player<'_, '_>,
) -> Played<()> {
    player.play(&mut Taking {
        items,
        devices: *devices,
    })
}

/// Plays the rows on a `Read`, or on its bytes.
pub fn play_reading<T: Read + Levels + Drop>(
    tower: T,
    devices: &Devices<'_>,
    player: &mut Player<'_, '_>,
) -> Played<()> {
    let devices = *devices;
    match devices.items {
        Items::Calls => player.play(&mut Reading { tower, devices }),
        Items::Bytes => play_items(tower.bytes(), &devices, player),
        _ => Err(Unplayed::NoStream),
    }
}

/// Plays the rows on a `BufRead`, or on its bytes, pieces or lines.
pub fn play_lending<T: BufRead + Levels + Drop>(
    tower: T,
    devices: &Devices<'_>,
    player: &mut Player<'_, '_>,
) -> Played<()> {
    let devices = *devices;
    match devices.items {
        Items::Calls => player.play(&mut Lending { tower, devices }),
        Items::Bytes => play_items(tower.bytes(), &devices, player),
        Items::Pieces => play_items(tower.split(player.alloc, devices.delim()), &devices, player),
        Items::Lines => play_items(tower.lines(player.alloc), &devices, player),
    }
}

/// Plays the rows on a limit over a `BufRead`.
pub fn play_limited<T: BufRead + Levels + Drop>(
    inner: T,
    limit: u64,
    devices: &Devices<'_>,
    player: &mut Player<'_, '_>,
) -> Played<()> {
    play_lending(inner.take(limit), devices, player)
}

/// Plays the rows on a chain.
pub fn play_chain<A: BufRead + Levels + Drop, B: BufRead + Levels + Drop>(
    first: A,
    second: B,
    devices: &Devices<'_>,
    player: &mut Player<'_, '_>,
) -> Played<()> {
    play_lending(first.chain(second), devices, player)
}

/// Plays the rows on a buffer of S bytes.
pub fn play_buffered<R: Read + Levels + Drop, const S: usize>(
    inner: R,
    devices: &Devices<'_>,
    player: &mut Player<'_, '_>,
) -> Played<()>
    requires some_room { 0 < S }
    requires in_memory { S < 2 ^ 63 }
    requires fits { BufReaderFits R.row S }
{
    play_lending(BufReader::<R, S>::new(inner), devices, player)
}

/// Plays the rows on a `BufRead` that seeks, borrowed `lent` times for each call.
pub fn play_seeking<T: BufRead + Seek + Levels + Drop>(
    tower: T,
    lent: usize,
    devices: &Devices<'_>,
    player: &mut Player<'_, '_>,
) -> Played<()> {
    player.play(&mut Seeking {
        tower,
        lent,
        devices: *devices,
    })
}
