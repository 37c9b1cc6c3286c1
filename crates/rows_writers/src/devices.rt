// Devices with a journal, by themselves and below towers.
use crate::levels::{NOTED, RECORDER, lend, play_level};
use crate::tower::{Device, Object};
use crate::writing::{Columns, make_any_call, play, play_seeking};
use examples::Numbered;
use io_bench::Tally;
use no_std_io2::io::{BufWriter, Seek, Write, print_to_object};
use rows_play::prelude::*;
use std::alloc::Global;

/// Makes a recorder with this journal.
pub fn new_recorder(alloc: Global, journal: &Notes) -> Played<Recorder> {
    Ok(Recorder::new(alloc, journal.clone()?, ReaderName::Only))
}

/// Makes a device that also notes the name of each call.
pub fn new_device(alloc: Global, journal: &Notes) -> Played<Device> {
    Ok(Noted::new(new_recorder(alloc, journal)?, journal.clone()?))
}

/// Lends a recorder below levels.
pub fn lend_recorder(name: &str, words: &str, player: &mut Player<'_, '_>) -> Played<()> {
    let journal = new_journal(player.alloc, words)?;
    let recorder = new_recorder(player.alloc, &journal)?;
    let columns = Columns::All(journal, 2);
    if let Some(levels) = name.strip_suffix("Box dyn") {
        let object = Box::new(player.alloc, recorder)?;
        return lend_object(levels.trim(), object, columns, player);
    }
    match name {
        "Device" => play_seeking(recorder, columns, player),
        "Box Device" => play_seeking(Box::new(player.alloc, recorder)?, columns, player),
        "BufWriter 8 BufWriter 3" => {
            let below = BufWriter::<Recorder, 3>::new(recorder);
            play_level::<_, 8>("BufWriter", below, columns, player)
        }
        _ => lend_tower(name, recorder, columns, words, player),
    }
}

// Lends a level over a recorder, possibly with a buffer of 8 bytes between them.
fn lend_tower(
    name: &str,
    recorder: Recorder,
    columns: Columns,
    words: &str,
    player: &mut Player<'_, '_>,
) -> Played<()> {
    let below = BufWriter::<Recorder, 8>::new(recorder);
    match name {
        "BufWriter 4 BufWriter 8" => play_level::<_, 4>("BufWriter", below, columns, player),
        "LineWriter 8 BufWriter 8" => play_level::<_, 8>("LineWriter", below, columns, player),
        "LineWriter 8 Box BufWriter 8" => {
            let below = Box::new(player.alloc, below)?;
            play_level::<_, 8>("LineWriter", below, columns, player)
        }
        _ => lend::<RECORDER>(name, words, player),
    }
}

/// Lends a boxed object, by itself or below levels.
pub fn lend_object(
    levels: &str,
    object: Object,
    columns: Columns,
    player: &mut Player<'_, '_>,
) -> Played<()> {
    match levels {
        "" => play(object, columns, player),
        "BufWriter 4" => play_level::<_, 4>("BufWriter", object, columns, player),
        "LineWriter 8" => play_level::<_, 8>("LineWriter", object, columns, player),
        "BufWriter 8 BufWriter 3" => {
            let below = BufWriter::<Object, 3>::new(object);
            play_level::<_, 8>("BufWriter", below, columns, player)
        }
        "LineWriter 8 BufWriter 8" => {
            let below = BufWriter::<Object, 8>::new(object);
            play_level::<_, 8>("LineWriter", below, columns, player)
        }
        _ => Err(Unplayed::NoStream),
    }
}

/// Lends a device that also notes the name of each call.
pub fn lend_device(name: &str, words: &str, player: &mut Player<'_, '_>) -> Played<()> {
    let journal = new_journal(player.alloc, words)?;
    let device = new_device(player.alloc, &journal)?;
    if let Some(levels) = name.strip_suffix("Box dyn Write") {
        let object = Box::new(player.alloc, device)?;
        return lend_object(levels.trim(), object, Columns::Calls(journal), player);
    }
    match name {
        "Device" | "&mut Device" | "&mut &mut Device" | "&mut dyn Write" | "&mut dyn Seek" =>
            player.play(&mut Handed {
                name,
                device,
                journal,
            }),
        "Box dyn Seek" => {
            let seeker = Box::new(player.alloc, device)?;
            player.play(&mut Boxed { seeker, journal })
        }
        "Box Device" => {
            let boxed = Box::new(player.alloc, device)?;
            play_seeking(boxed, Columns::Calls(journal), player)
        }
        "Tally" => play(Tally::new(device), Columns::Calls(journal), player),
        "Numbered" => {
            let numbered = Numbered {
                number: 1,
                stream: device,
            };
            play(numbered, Columns::Calls(journal), player)
        }
        _ => lend::<NOTED>(name, words, player),
    }
}

// A boxed seeker, and the journal of its device.
#[derive(Drop)]
struct Boxed {
    seeker: Box<dyn Seek + Drop>,
    journal: Notes,
}

impl Stream for Boxed {
    fn play(&mut self, call: &Call<'_>, line: &mut Line) {
        if !make_seek(&mut self.seeker, call, line) {
            line.tell(Unplayed::NoCall);
        }
        show_calls(&self.journal, line);
    }
}

// Makes a call of an object. A text to it is `print_to_object TEXT`.
fn make_lent_write(object: &mut dyn Write, call: &Call<'_>, line: &mut Line) {
    if call.word != "print_to_object" {
        let mut lent = object;
        make_call(&mut lent, call, line);
        return;
    }
    match std::str::from_utf8(&call.bytes) {
        Ok(text) => line.done(&print_to_object::<_, _, 8>(object, text)),
        Err(_) => line.tell(Unplayed::NoWord),
    }
}

fn make_lent_seek(object: &mut dyn Seek, call: &Call<'_>, line: &mut Line) {
    let mut lent = object;
    if !make_seek(&mut lent, call, line) {
        line.tell(Unplayed::NoCall);
    }
}

// A device, which is called itself, or through a reference to it or to an object.
#[derive(Drop)]
struct Handed<'a> {
    name: &'a str,
    device: Device,
    journal: Notes,
}

impl<'a> Stream for Handed<'a> {
    fn play(&mut self, call: &Call<'_>, line: &mut Line) {
        match self.name {
            "&mut Device" => make_any_call(&mut &mut self.device, call, line),
            "&mut &mut Device" => make_any_call(&mut &mut &mut self.device, call, line),
            "&mut dyn Write" => make_lent_write(&mut self.device, call, line),
            "&mut dyn Seek" => make_lent_seek(&mut self.device, call, line),
            _ => make_any_call(&mut self.device, call, line),
        }
        show_calls(&self.journal, line);
    }
}
