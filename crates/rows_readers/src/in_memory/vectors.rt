// Vectors that grow, a buffer over a cursor on one, and a queue.
use super::cursors::{place_of, show};
use no_std_io2::io::{BufWriter, Cursor};
use rows_play::prelude::*;
use std::collections::VecDeque;

// A buffer over a cursor, whose position `place N` sets. The columns are those of the cursor, and then the held bytes.
#[derive(Drop)]
pub struct Buffered {
    pub writer: BufWriter<Cursor<Vec<u8>>, 8>,
}

impl Stream for Buffered {
    fn play(&mut self, call: &Call<'_>, line: &mut Line) {
        if call.word == "place" {
            self.writer.get_mut().set_position(place_of(call, line));
        } else if !make_seek(&mut self.writer, call, line) {
            make_call(&mut self.writer, call, line);
        }
        let cursor = self.writer.get_ref();
        show(cursor.get_ref(), cursor.position(), line);
        line.bytes_column(self.writer.buffer());
    }
}

// A cursor on an empty vector with room, or just the vector, which is written at its end. The columns after a call are
// its result, the content's length, and the capacity.
#[derive(Drop)]
struct Grown {
    cursor: Cursor<Vec<u8>>,
    is_cursor: bool,
}

impl Stream for Grown {
    fn play(&mut self, call: &Call<'_>, line: &mut Line) {
        match call.word {
            "place" if self.is_cursor => self.cursor.set_position(place_of(call, line)),
            _ if self.is_cursor => make_call(&mut self.cursor, call, line),
            _ => make_call(self.cursor.get_mut(), call, line),
        }
        line.value_column(self.cursor.get_ref().len());
        line.value_column(self.cursor.get_ref().capacity());
    }
}

// A queue. The column after a call is its content.
#[derive(Drop)]
struct Queue {
    bytes: VecDeque<u8>,
}

impl Stream for Queue {
    fn play(&mut self, call: &Call<'_>, line: &mut Line) {
        if call.word.starts_with("write") || call.word == "flush" {
            make_call(&mut self.bytes, call, line);
        } else {
            make_read(&mut self.bytes, call, line);
        }
        line.column();
        let (front, back) = self.bytes.as_slices();
        let mut held = Vec::new(call.alloc);
        if held.extend_from_slice(front).is_err() || held.extend_from_slice(back).is_err() {
            line.cut();
        }
        line.bytes(&held);
    }
}

pub fn lend_queue(words: &str, player: &mut Player<'_, '_>) -> Played<()> {
    let bytes = VecDeque::from_vec(unescape(player.alloc, words)?);
    player.play(&mut Queue { bytes })
}

// Lends a stream with room for as many bytes as a row's `new` says.
pub fn lend(name: &str, words: &str, player: &mut Player<'_, '_>) -> Played<()> {
    let is_cursor = name == "Cursor";
    let Ok(room) = words.parse::<usize>() else {
        return Err(Unplayed::NoNumber);
    };
    if !is_cursor && name != "Vec" {
        return Err(Unplayed::NoStream);
    }
    let cursor = Cursor::new(Vec::with_capacity(player.alloc, room)?);
    player.play(&mut Grown { cursor, is_cursor })
}
