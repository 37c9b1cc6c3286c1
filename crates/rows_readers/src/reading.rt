// Readers over recorders, and references, boxes, objects, a buffer, a limit, a chain and a tally in front of a device that
// notes the name of each call.
use crate::devices::Devices;
use crate::in_memory::new_text;
use crate::streams::{
    play_buffered, play_chain, play_lending, play_limited, play_reading, play_seeking,
};
use examples::Numbered;
use io_bench::Tally;
use no_std_io2::io::{BufRead, BufReader, Read};
use rows_play::prelude::*;

pub fn lend(tower: &str, devices: &Devices<'_>, player: &mut Player<'_, '_>) -> Played<()> {
    let device = devices.first()?;
    match tower {
        "Device" => play_lending(device, devices, player),
        "Box Device" => play_lending(Box::new(player.alloc, device)?, devices, player),
        "Box dyn" => {
            let object: Box<dyn BufRead + Drop> = Box::new(player.alloc, device)?;
            play_lending(object, devices, player)
        }
        "BufReader 1" => play_buffered::<Recorder, 1>(device, devices, player),
        "BufReader 4" => play_buffered::<Recorder, 4>(device, devices, player),
        "BufReader 300" => play_buffered::<Recorder, 300>(device, devices, player),
        "Take" => play_limited(device, 2, devices, player),
        "Take BufReader 1" => {
            play_limited(BufReader::<Recorder, 1>::new(device), 2, devices, player)
        }
        _ => lend_chain(tower, device, devices, player),
    }
}

// Lends a chain, by its first reader.
fn lend_chain(
    tower: &str,
    device: Recorder,
    devices: &Devices<'_>,
    player: &mut Player<'_, '_>,
) -> Played<()> {
    let second = devices.recorder(ReaderName::Second)?;
    match tower {
        "Chain" => play_chain(device, second, devices, player),
        "Chain Take" => play_chain(device.take(2), second, devices, player),
        "BufReader 2 Chain" => play_buffered::<_, 2>(device.chain(second), devices, player),
        "BufReader 4 Chain" => play_buffered::<_, 4>(device.chain(second), devices, player),
        "Box Chain" => {
            let both = Box::new(player.alloc, device)?.chain(second);
            play_lending(Box::new(player.alloc, both)?, devices, player)
        }
        "Chain Chain" => {
            let third = devices.recorder(ReaderName::Second)?;
            play_chain(device, second.chain(third), devices, player)
        }
        // what reaches the text is no device's
        "Chain Text" => play_chain(device, new_text(player.alloc, "456789")?, devices, player),
        _ => Err(Unplayed::NoStream),
    }
}

/// Lends a buffer of 4 bytes, a limit, or a limit over such a buffer, that also seeks.
pub fn lend_seeker(tower: &str, devices: &Devices<'_>, player: &mut Player<'_, '_>) -> Played<()> {
    let device = devices.first()?;
    match tower {
        "BufReader 4" => play_seeking(BufReader::<Recorder, 4>::new(device), 0, devices, player),
        "Take" => play_seeking(device.take(2), 0, devices, player),
        "Take BufReader 4" => {
            let below = BufReader::<Recorder, 4>::new(device);
            play_seeking(below.take(2), 0, devices, player)
        }
        _ => Err(Unplayed::NoStream),
    }
}

type Device = Noted<Recorder>;

/// Lends a stream in front of a device that notes the name of each call.
pub fn lend_noted(name: &str, devices: &Devices<'_>, player: &mut Player<'_, '_>) -> Played<()> {
    let device = devices.noted()?;
    match name {
        "Device" => play_seeking(device, 0, devices, player),
        "&mut Device" => play_seeking(device, 1, devices, player),
        "&mut &mut Device" => play_seeking(device, 2, devices, player),
        "&mut dyn Read" => player.play(&mut LentObject {
            device,
            devices: *devices,
        }),
        "BufReader 4" => play_seeking(BufReader::<Device, 4>::new(device), 0, devices, player),
        "Take" => play_seeking(device.take(2), 0, devices, player),
        "Chain" => {
            let second = Noted::new(
                devices.recorder(ReaderName::Second)?,
                devices.journal.clone()?,
            );
            play_chain(device, second, devices, player)
        }
        "Tally" => play_reading(Tally::new(device), devices, player),
        "Numbered" => {
            let numbered = Numbered {
                number: 1,
                stream: device,
            };
            play_reading(numbered, devices, player)
        }
        _ => lend_box(name, device, devices, player),
    }
}

fn lend_box(
    name: &str,
    device: Device,
    devices: &Devices<'_>,
    player: &mut Player<'_, '_>,
) -> Played<()> {
    let tower = Box::new(player.alloc, device)?;
    match name {
        "Box Device" => play_seeking(tower, 0, devices, player),
        "Box dyn Read" => {
            let object: Box<dyn Read + Drop> = tower;
            play_reading(object, devices, player)
        }
        "Box dyn BufRead" => {
            let object: Box<dyn BufRead + Drop> = tower;
            play_lending(object, devices, player)
        }
        _ => Err(Unplayed::NoStream),
    }
}

// A device that is called through a reference to an object.
#[derive(Drop)]
struct LentObject<'j> {
    device: Device,
    devices: Devices<'j>,
}

impl<'j> Stream for LentObject<'j> {
    fn play(&mut self, call: &Call<'_>, line: &mut Line) {
        make_lent_read(&mut self.device, call, line);
        self.devices.show_calls(line);
    }
}

fn make_lent_read(object: &mut dyn Read, call: &Call<'_>, line: &mut Line) {
    let mut lent = object;
    make_read(&mut lent, call, line);
}
