// `play` of a script of writes on a tower: what it writes to a vector, or its fault. A row is the shape and the script;
// `feed KIND` is a script whose first read is a fault of this kind.
ghost use Rattle.no_std_io2.specs.BufReader.{BufReaderFits};

use io_bench::{Event, Feed, kind_of_name};
use no_std_io2::io::Read;
use rows_play::prelude::*;
use std::alloc::Global;
use tower_play::{Shape, play};

fn shape_of(word: &str) -> Option<Shape> {
    match word {
        "buf" => Some(Shape::Buf),
        "line" => Some(Shape::Line),
        "buf-buf" => Some(Shape::BufBuf),
        "line-buf" => Some(Shape::LineBuf),
        _ => None,
    }
}

fn show_play<R: Read + Drop>(alloc: Global, input: R, shape: Shape, line: &mut Line)
    requires { BufReaderFits R.row 64 }
{
    match play(alloc, input, Vec::<u8>::new(alloc), shape) {
        Ok(text) => line.bytes(&text),
        Err(fault) => match format!(in alloc; "!{fault}") {
            Ok(text) => line.word(text.as_str()),
            Err(_) => line.cut(),
        },
    }
}

fn play_feed(alloc: Global, kind: &str, line: &mut Line) {
    let Some(kind) = kind_of_name(kind) else {
        line.tell(Unplayed::NoWord);
        return;
    };
    match Vec::from_slice(alloc, &[Event::Fail(kind)]) {
        Ok(events) => show_play(alloc, Feed::new(events, 4), Shape::Buf, line),
        Err(_) => line.cut(),
    }
}

// A stream without a state: its rows say everything.
#[derive(Drop)]
struct Playing;

impl Stream for Playing {
    fn play(&mut self, call: &Call<'_>, line: &mut Line) {
        match shape_of(call.word) {
            Some(shape) => show_play(call.alloc, call.bytes.as_slice(), shape, line),
            None if call.word == "feed" => play_feed(call.alloc, call.rest, line),
            None => line.tell(Unplayed::NoCall),
        }
    }
}

pub fn lend(player: &mut Player<'_, '_>) -> Played<()> {
    player.play(&mut Playing)
}
