// Base64 and numbers over devices that note their calls.
//
// A row of an encoder is a call; then its result, the text out and the calls that reached the device; `drop` ends the
// encoder. A row of a decoder is a call; then its result, the bytes that it gave, and the calls. A row of a writer of
// numbers is `TYPE NUMBER`, with the same columns as an encoder. A row of a reader of numbers is a type; then the number
// and the calls. A row of base64 is `encoded BYTES` or `decoded TEXT`, and what that returned.
use crate::client::{Client, Columns, new_device, play};
use base64::engine::general_purpose::STANDARD;
use base64_stream::{DecoderReader, EncoderWriter, decoded, encoded};
use no_std_io2::io::Result as IoResult;
use numbers::{BigEndian, LittleEndian, ReadBytesExt, WriteBytesExt, read_varint, write_varint};
use rows_play::prelude::*;
use std::num::{saturating_f32_to_u64, saturating_f64_to_u64};

impl Client for EncoderWriter<Recorder, 512> {
    fn call(&mut self, call: &Call<'_>, line: &mut Line) {
        match call.word {
            "finish" => line.done(&self.finish()),
            _ => make_call(self, call, line),
        }
    }
}

impl Client for DecoderReader<Recorder> {
    fn call(&mut self, call: &Call<'_>, line: &mut Line) {
        make_read(self, call, line);
    }
}

// The calls over a whole text.
#[derive(Drop)]
struct Texts;

impl Stream for Texts {
    fn play(&mut self, call: &Call<'_>, line: &mut Line) {
        let made = match call.word {
            "encoded" => encoded(call.alloc, &call.bytes),
            _ => decoded(call.alloc, &call.bytes),
        };
        match made {
            Ok(bytes) => line.bytes(&bytes),
            Err(e) => line.error(&e),
        }
    }
}

// Writes the unsigned number of a row. It returns `None` if the row has no such number.
fn write_unsigned(to: &mut Recorder, call: &Call<'_>) -> Option<IoResult<()>> {
    let n = call.rest.parse::<u64>().ok()?;
    match call.word {
        "u8" => Some(to.write_u8(u8::try_from(n).ok()?)),
        "u16be" => Some(to.write_u16::<BigEndian>(u16::try_from(n).ok()?)),
        "u16le" => Some(to.write_u16::<LittleEndian>(u16::try_from(n).ok()?)),
        "u32be" => Some(to.write_u32::<BigEndian>(u32::try_from(n).ok()?)),
        "u64be" => Some(to.write_u64::<BigEndian>(n)),
        "u128be" => Some(to.write_u128::<BigEndian>(u128::from(n))),
        "f32be" => Some(to.write_f32::<BigEndian>(f32::from(u16::try_from(n).ok()?))),
        "f64le" => Some(to.write_f64::<LittleEndian>(f64::from(u32::try_from(n).ok()?))),
        "varint" => Some(write_varint(to, n)),
        _ => None,
    }
}

// The same of a signed number.
fn write_signed(to: &mut Recorder, call: &Call<'_>) -> Option<IoResult<()>> {
    let n = call.rest.parse::<i64>().ok()?;
    match call.word {
        "i8" => Some(to.write_i8(i8::try_from(n).ok()?)),
        "i16be" => Some(to.write_i16::<BigEndian>(i16::try_from(n).ok()?)),
        "i32be" => Some(to.write_i32::<BigEndian>(i32::try_from(n).ok()?)),
        "i64be" => Some(to.write_i64::<BigEndian>(n)),
        _ => None,
    }
}

// A writer of numbers.
#[derive(Drop)]
struct Writing {
    device: Recorder,
}

impl Client for Writing {
    fn call(&mut self, call: &Call<'_>, line: &mut Line) {
        let written = if !call.word.starts_with('i') {
            write_unsigned(&mut self.device, call)
        } else {
            write_signed(&mut self.device, call)
        };
        match written {
            Some(result) => line.done(&result),
            None => line.tell(Unplayed::NoNumber),
        }
    }
}

// A reader of numbers.
#[derive(Drop)]
struct Reading {
    device: Recorder,
}

// Reads three numbers, and prints them also after an error.
fn read_three(device: &mut Recorder, line: &mut Line) {
    let mut three = [7u16; 3];
    line.done(&device.read_u16_into::<BigEndian>(&mut three));
    'numbers: for n in three {
        line.word(" ");
        line.value(n);
    }
}

fn read_number(device: &mut Recorder, word: &str, line: &mut Line) {
    match word {
        "u8" => line.answer(&device.read_u8()),
        "u16be" => line.answer(&device.read_u16::<BigEndian>()),
        "u16be_into" => read_three(device, line),
        "u16le" => line.answer(&device.read_u16::<LittleEndian>()),
        "u32be" => line.answer(&device.read_u32::<BigEndian>()),
        "u64be" => line.answer(&device.read_u64::<BigEndian>()),
        "f32be" => line.answer(
            &device
                .read_f32::<BigEndian>()
                .map(|x| saturating_f32_to_u64(x)),
        ),
        "f64le" => line.answer(
            &device
                .read_f64::<LittleEndian>()
                .map(|x| saturating_f64_to_u64(x)),
        ),
        "varint" => line.answer(&read_varint(device)),
        "i8" => line.answer(&device.read_i8()),
        "i16be" => line.answer(&device.read_i16::<BigEndian>()),
        "i32be" => line.answer(&device.read_i32::<BigEndian>()),
        "i64be" => line.answer(&device.read_i64::<BigEndian>()),
        _ => line.tell(Unplayed::NoCall),
    }
}

impl Client for Reading {
    fn call(&mut self, call: &Call<'_>, line: &mut Line) {
        read_number(&mut self.device, call.word, line);
    }
}

pub fn lend(name: &str, words: &str, player: &mut Player<'_, '_>) -> Played<()> {
    let (device, journal) = new_device(player.alloc, words)?;
    match name {
        "EncoderWriter" => {
            let writer = EncoderWriter::<Recorder, 512>::new(device, STANDARD);
            play(writer, Columns::All(journal), player)
        }
        "DecoderReader" => {
            let reader = DecoderReader::new(device, STANDARD);
            play(reader, Columns::Calls(journal), player)
        }
        "base64" => player.play(&mut Texts),
        "WriteBytesExt" => play(Writing { device }, Columns::All(journal), player),
        "ReadBytesExt" => play(Reading { device }, Columns::Calls(journal), player),
        _ => Err(Unplayed::NoStream),
    }
}
