// Readings that are printed through a buffer, a checksum, and a `Tee`, over devices that note their calls.
//
// A row is `write_readings` or `send_reading` and the values, or `flush`; then its result, the bytes out and the calls
// that reached the device. Or it is `checksum_of`; then the sum, and the calls. Or it is a call of a `Tee`, and its result;
// then what is out of the first device and the calls that reached it, and the same of the second. The scripts of the two
// are parted by `/`.
use crate::client::{Client, Columns, new_device, on_journal, play};
use examples::{Tee, checksum_of, send_reading, write_readings};
use no_std_io2::io::{BufWriter, Read, Write};
use rows_play::prelude::*;
use std::alloc::Global;

// Returns the values of a row. A word that is no number makes the row unplayable.
pub fn values_of(alloc: Global, words: &str, line: &mut Line) -> Vec<u32> {
    let mut values = Vec::new(alloc);
    'words: for word in words.split(" ") {
        match word.parse::<u32>() {
            Ok(value) => {
                if values.push(value).is_err() {
                    line.cut();
                }
            }
            Err(_) => line.tell(Unplayed::NoNumber),
        }
    }
    values
}

impl Client for BufWriter<Recorder, 64> {
    fn call(&mut self, call: &Call<'_>, line: &mut Line) {
        match call.word {
            "write_readings" => {
                let values = values_of(call.alloc, call.rest, line);
                line.done(&write_readings(self, "t", &values));
            }
            "send_reading" => match call.rest.parse::<u32>() {
                Ok(value) => line.done(&send_reading(self, "t", value)),
                Err(_) => line.tell(Unplayed::NoNumber),
            },
            "flush" => line.done(&self.flush()),
            _ => line.tell(Unplayed::NoCall),
        }
    }
}

pub fn lend_readings(words: &str, player: &mut Player<'_, '_>) -> Played<()> {
    let (device, journal) = new_device(player.alloc, words)?;
    let writer = BufWriter::<Recorder, 64>::new(device);
    play(writer, Columns::All(journal), player)
}

// A device of which checksums are taken.
impl Client for Recorder {
    fn call(&mut self, _call: &Call<'_>, line: &mut Line) {
        let mut piece = [0u8; 4];
        let device: &mut dyn Read = self;
        match checksum_of(device, &mut piece) {
            Ok(sum) => line.value(sum),
            Err(e) => line.error(&e),
        }
    }
}

pub fn lend_checksum(words: &str, player: &mut Player<'_, '_>) -> Played<()> {
    let (device, journal) = new_device(player.alloc, words)?;
    play(device, Columns::Calls(journal), player)
}

// A tee, and the journals of its devices.
#[derive(Drop)]
struct Teeing {
    writer: Tee<Recorder, Recorder, 4>,
    first: Notes,
    second: Notes,
}

impl Stream for Teeing {
    fn play(&mut self, call: &Call<'_>, line: &mut Line) {
        make_call(&mut self.writer, call, line);
        show_out(&self.first, line);
        show_calls(&self.first, line);
        show_out(&self.second, line);
        show_calls(&self.second, line);
    }
}

pub fn lend_tee(words: &str, player: &mut Player<'_, '_>) -> Played<()> {
    let (one, two) = cut(words, "/");
    let first = new_journal(player.alloc, one.trim())?;
    let second = new_journal(player.alloc, two.trim())?;
    let one = on_journal(player.alloc, &first)?;
    let writer = Tee::new(one, on_journal(player.alloc, &second)?);
    player.play(&mut Teeing {
        writer,
        first,
        second,
    })
}
