// Cursors, and buffers over one, played by rows of calls.
//
// The columns after a call are its result, for a read the bytes that it gave, the content and the position; for a
// buffer the state of each level.
use super::new_text;
use super::vectors::Buffered;
use crate::devices::Devices;
use crate::streams::{call_copy, make_seeking_call, play_seeking};
use no_std_io2::io::{AsSlice, BufRead, BufReader, BufWriter, Cursor, Seek, Write};
use rows_play::prelude::*;

type Text = Cursor<Vec<u8>>;

pub fn show(content: &[u8], position: u64, line: &mut Line) {
    line.bytes_column(content);
    line.value_column(position);
}

// Returns the position that a row `place N` sets.
pub fn place_of(call: &Call<'_>, line: &mut Line) -> u64 {
    line.word("-");
    call.number(line) as u64
}

// Makes the call of a row on a stream that also writes.
fn make_any_call<T: Write + BufRead + Seek>(stream: &mut T, call: &Call<'_>, line: &mut Line) {
    if call.word.starts_with("write") || call.word == "flush" {
        make_call(stream, call, line);
    } else {
        make_seeking_call(stream, call, line);
    }
}

// A cursor on a vector. Besides the calls of its traits it has `place N`, which sets the position, `clone`, which continues
// with the clone and prints whether it is equal, and `copy S ACTS`, which copies the rest.
#[derive(Drop)]
struct OnVector {
    cursor: Text,
}

impl OnVector {
    fn call_clone(&mut self, line: &mut Line) {
        match self.cursor.clone() {
            Ok(clone) => {
                line.word(if clone == self.cursor {
                    "equal"
                } else {
                    "differs"
                });
                self.cursor = clone;
            }
            Err(e) => line.error(&e),
        }
    }
}

impl Stream for OnVector {
    fn play(&mut self, call: &Call<'_>, line: &mut Line) {
        match call.word {
            "place" => self.cursor.set_position(place_of(call, line)),
            "clone" => self.call_clone(line),
            "copy" => call_copy(&mut self.cursor, call, line),
            _ => make_any_call(&mut self.cursor, call, line),
        }
        show(self.cursor.get_ref(), self.cursor.position(), line);
    }
}

// A cursor on borrowed content, on a boxed slice or on an array of two bytes. A new one is made for each call, at the
// position of the last one. It has `place N` too.
#[derive(Drop)]
struct OnLent<'a> {
    name: &'a str,
    content: Vec<u8>,
    position: u64,
}

impl<'a> OnLent<'a> {
    // Makes a call, and returns the position afterwards.
    fn make_call(&mut self, call: &Call<'_>, line: &mut Line) -> u64 {
        match self.name {
            "&mut Vec" => {
                let mut cursor = Cursor::new(&mut self.content);
                cursor.set_position(self.position);
                make_any_call(&mut cursor, call, line);
                cursor.position()
            }
            "&mut [u8]" => {
                let mut cursor = Cursor::new(self.content.as_mut_slice());
                cursor.set_position(self.position);
                make_any_call(&mut cursor, call, line);
                cursor.position()
            }
            "Box [u8]" => {
                let content = std::mem::replace(&mut self.content, Vec::new(call.alloc));
                let mut cursor = Cursor::new(content.into_boxed_slice());
                cursor.set_position(self.position);
                make_any_call(&mut cursor, call, line);
                let position = cursor.position();
                self.content = cursor.into_inner().into_vec();
                position
            }
            "[u8;2]" => self.call_array(call, line),
            _ => self.make_reading_call(call, line),
        }
    }

    fn call_array(&mut self, call: &Call<'_>, line: &mut Line) -> u64 {
        let [first, second] = self.content.as_slice() else {
            return self.refuse(line);
        };
        let mut cursor = Cursor::new([*first, *second]);
        cursor.set_position(self.position);
        make_any_call(&mut cursor, call, line);
        self.content.copy_from_slice(cursor.get_ref());
        cursor.position()
    }

    // Makes a call on a cursor that only reads and seeks, and returns the position afterwards.
    fn make_reading_call(&self, call: &Call<'_>, line: &mut Line) -> u64 {
        let content = self.content.as_slice();
        match self.name {
            "&[u8]" => self.read_from(content, call, line),
            "&Vec" => self.read_from(&self.content, call, line),
            "&str" => match std::str::from_utf8(content) {
                Ok(text) => self.read_from(text, call, line),
                Err(_) => self.refuse(line),
            },
            "&[u8;6]" => match content {
                [a, b, c, d, e, f] => {
                    let array = [*a, *b, *c, *d, *e, *f];
                    self.read_from(&array, call, line)
                }
                _ => self.refuse(line),
            },
            _ => self.refuse(line),
        }
    }

    fn read_from<T: AsSlice<u8> + Drop>(
        &self,
        content: T,
        call: &Call<'_>,
        line: &mut Line,
    ) -> u64 {
        let mut cursor = Cursor::new(content);
        cursor.set_position(self.position);
        make_seeking_call(&mut cursor, call, line);
        cursor.position()
    }

    // The row names no stream that there is.
    fn refuse(&self, line: &mut Line) -> u64 {
        line.tell(Unplayed::NoStream);
        self.position
    }
}

impl<'a> Stream for OnLent<'a> {
    fn play(&mut self, call: &Call<'_>, line: &mut Line) {
        self.position = match call.word {
            "place" => place_of(call, line),
            _ => self.make_call(call, line),
        };
        show(&self.content, self.position, line);
    }
}

// A buffer of 4 bytes over a text. Besides the calls of a reader and a seeker it has `place N`, which sets the position
// of the text below, and `position`, which asks for its own.
#[derive(Drop)]
struct Moving<'j> {
    reader: BufReader<Text, 4>,
    devices: Devices<'j>,
}

impl<'j> Stream for Moving<'j> {
    fn play(&mut self, call: &Call<'_>, line: &mut Line) {
        match call.word {
            "place" => self.reader.get_mut().set_position(place_of(call, line)),
            "position" => line.answer(&self.reader.position()),
            _ => make_seeking_call(&mut self.reader, call, line),
        }
        self.devices.show(&self.reader, line);
    }
}

pub fn lend(name: &str, words: &str, player: &mut Player<'_, '_>) -> Played<()> {
    let content = unescape(player.alloc, words)?;
    match name {
        "Vec" => player.play(&mut OnVector {
            cursor: Cursor::new(content),
        }),
        "BufWriter 8" => player.play(&mut Buffered {
            writer: BufWriter::new(Cursor::new(content)),
        }),
        _ => player.play(&mut OnLent {
            name,
            content,
            position: 0,
        }),
    }
}

pub fn lend_moved(devices: &Devices<'_>, player: &mut Player<'_, '_>) -> Played<()> {
    let reader = BufReader::<Text, 4>::new(new_text(player.alloc, devices.words)?);
    player.play(&mut Moving {
        reader,
        devices: *devices,
    })
}

// A boxed seeker.
#[derive(Drop)]
struct Boxed {
    seeker: Box<dyn Seek + Drop>,
}

impl Stream for Boxed {
    fn play(&mut self, call: &Call<'_>, line: &mut Line) {
        if !make_seek(&mut self.seeker, call, line) {
            line.tell(Unplayed::NoCall);
        }
    }
}

/// Lends a cursor whose position is shown, or a boxed one.
pub fn lend_seeker(name: &str, devices: &Devices<'_>, player: &mut Player<'_, '_>) -> Played<()> {
    let text = new_text(player.alloc, devices.words)?;
    match name {
        "Cursor" => play_seeking(text, 0, devices, player),
        "Box dyn Cursor" => {
            let seeker = Box::new(player.alloc, text)?;
            player.play(&mut Boxed { seeker })
        }
        _ => Err(Unplayed::NoStream),
    }
}
