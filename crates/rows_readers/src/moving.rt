// A buffered reader over a recorder, which is sought, and from which records are read, played by rows
// of calls.
//
// The columns after a call are its result, for a read the bytes that it gave, the bytes behind, the held bytes, and the
// calls that reached the device.
use crate::devices::Devices;
use no_std_io2::io::{BufReader, Error, ErrorKind, Read, Result};
use rows_play::prelude::*;
use std::alloc::Global;

type Reader = BufReader<Recorder, 8>;

// Returns the tag and the length of the next record, and takes nothing. A record is a tag, a length, and that many bytes.
fn peek_header(r: &mut Reader) -> Result<(u8, u8)> {
    if !r.fill_to(2)? {
        return Err(Error::new(ErrorKind::UnexpectedEof, "failed to fill whole buffer"));
    }
    let held = r.buffer();
    Ok((held[0], held[1]))
}

// Returns the payload of the next record if it has this tag, and else `None`; the record then stays to be read.
fn read_record(alloc: Global, r: &mut Reader, wanted: u8) -> Result<Option<Vec<u8>>> {
    let (tag, len) = peek_header(r)?;
    if tag != wanted {
        return Ok(None);
    }
    let mut payload = Vec::from_elem(alloc, 0u8, usize::from(len))?;
    // The header is held, so this makes no call.
    r.read_exact(&mut [0; 2])?;
    r.read_exact(&mut payload)?;
    Ok(Some(payload))
}

fn call_peek(r: &mut Reader, line: &mut Line) {
    match peek_header(r) {
        Ok((tag, len)) => {
            line.bytes(&[tag]);
            line.word(" ");
            line.value(len);
        }
        Err(e) => line.error(&e),
    }
}

fn call_record(alloc: Global, r: &mut Reader, tag: u8, line: &mut Line) {
    match read_record(alloc, r, tag) {
        Ok(Some(payload)) => line.bytes(&payload),
        Ok(None) => line.word("another"),
        Err(e) => line.error(&e),
    }
}

// Besides the calls of a reader and a seeker there are `peek`, which prints the tag and the length of the
// next record, and `record TAG`.
#[derive(Drop)]
struct Moving<'j> {
    reader: Reader,
    devices: Devices<'j>,
}

impl<'j> Moving<'j> {
    fn make_move(&mut self, call: &Call<'_>, line: &mut Line) {
        match call.word {
            "peek" => call_peek(&mut self.reader, line),
            "record" => match call.bytes.first() {
                Some(tag) => call_record(call.alloc, &mut self.reader, *tag, line),
                None => line.tell(Unplayed::NoWord),
            },
            _ => {
                if !make_seek(&mut self.reader, call, line) {
                    make_lend(&mut self.reader, call, line);
                }
            }
        }
    }
}

impl<'j> Stream for Moving<'j> {
    fn play(&mut self, call: &Call<'_>, line: &mut Line) {
        self.make_move(call, line);
        line.bytes_column(self.reader.behind());
        line.bytes_column(self.reader.buffer());
        self.devices.show_calls(line);
    }
}

pub fn lend(devices: &Devices<'_>, player: &mut Player<'_, '_>) -> Played<()> {
    let reader = Reader::new(devices.first()?);
    player.play(&mut Moving {
        reader,
        devices: *devices,
    })
}
