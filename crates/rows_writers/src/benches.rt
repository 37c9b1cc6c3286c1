// Vectors, sinks and devices of `io_bench`, which note no call, by themselves and below towers.
ghost use Rattle.no_std_io2.specs.BufWriter.{BufWriterFits};

use crate::devices::lend_object;
use crate::levels::{COUNTED, FAULTY, LAWFUL, LAWFUL_BUFFERED, VECTOR, lend as lend_level};
use crate::tower::Object;
use crate::writing::{Columns, play};
use examples::Narrow;
use io_bench::Faulty;
use no_std_io2::io::{BufWriter, Sink, Write};
use rows_play::prelude::*;
use std::alloc::Global;

/// Makes an empty vector that fails as these acts say: `take 2, zero, fail BrokenPipe`.
pub fn new_faulty(alloc: Global, words: &str) -> Played<Faulty<Vec<u8>>> {
    Ok(Faulty::new(Vec::new(alloc), parse_list(alloc, words)?))
}

/// Lends the stream of this name, which ends with the name of its device.
pub fn lend(name: &str, words: &str, player: &mut Player<'_, '_>) -> Played<()> {
    if let Some((levels, device)) = name.split_once("Box dyn ") {
        return lend_boxed(levels.trim(), device, words, player);
    }
    let (level, device) = cut_last(name, " ");
    match device {
        "Vec" => lend_level::<VECTOR>(level, words, player),
        "Faulty" => lend_level::<FAULTY>(level, words, player),
        "Sink" => lend_level::<COUNTED>(cut(level, " Tally").0, words, player),
        "Narrow" => lend_narrow(words, player),
        _ => Err(Unplayed::NoStream),
    }
}

/// Lends a level, possibly over a buffer of the same size, where each run prints whether it keeps to the laws. The rows are
/// played over 13 devices, which take a byte in each of 0 to 12 calls before they do these acts.
pub fn lend_lawful(name: &str, words: &str, player: &mut Player<'_, '_>) -> Played<()> {
    let (level, _) = cut(name, " Faulty");
    let mut acts = String::new(player.alloc);
    'devices: for _ in 0..13 {
        let Ok(all) = format!(in player.alloc; "{acts}{words}") else {
            return Err(Unplayed::Memory);
        };
        lend_kept(level, all.as_str(), player)?;
        acts.push_str("take 1, ")?;
    }
    Ok(())
}

fn lend_kept(name: &str, words: &str, player: &mut Player<'_, '_>) -> Played<()> {
    match name.split_once(" BufWriter ") {
        Some((level, size)) if level.ends_with(size) => {
            lend_level::<LAWFUL_BUFFERED>(level, words, player)
        }
        _ => lend_level::<LAWFUL>(name, words, player),
    }
}

fn lend_boxed(levels: &str, device: &str, words: &str, player: &mut Player<'_, '_>) -> Played<()> {
    let alloc = player.alloc;
    let object: Object = match device {
        "Vec" => Box::new(alloc, Vec::<u8>::new(alloc))?,
        "Faulty" => Box::new(alloc, new_faulty(alloc, words)?)?,
        "Sink" => Box::new(alloc, Sink::new())?,
        _ => return Err(Unplayed::NoStream),
    };
    lend_object(levels, object, Columns::State, player)
}

// Lends a writer that takes at most this many bytes in a call.
fn lend_narrow(words: &str, player: &mut Player<'_, '_>) -> Played<()> {
    let taken = Vec::new(player.alloc);
    match words.parse::<usize>() {
        Ok(most) => play(Narrow { taken, most }, Columns::State, player),
        Err(_) => Err(Unplayed::NoNumber),
    }
}

// A vector that is lent to a buffer of 8 bytes, or to such a buffer over a device that fails, which a row writes to and
// drops. The column after a call is the vector.
#[derive(Drop)]
struct Lending<'a> {
    is_faulty: bool,
    words: &'a str,
    vector: Vec<u8>,
}

// Makes a call on a new buffer over a device, which is dropped then.
fn call_and_drop<W: Write + Drop>(device: W, call: &Call<'_>, line: &mut Line)
    requires { BufWriterFits W.row 8 }
{
    make_call(&mut BufWriter::<W, 8>::new(device), call, line);
}

impl<'a> Stream for Lending<'a> {
    fn play(&mut self, call: &Call<'_>, line: &mut Line) {
        match parse_list(call.alloc, self.words) {
            Ok(acts) if self.is_faulty => {
                call_and_drop(Faulty::new(&mut self.vector, acts), call, line);
            }
            Ok(_) => call_and_drop(&mut self.vector, call, line),
            Err(fault) => line.tell(fault),
        }
        line.bytes_column(&self.vector);
    }
}

/// Lends a buffer over a borrowed vector.
pub fn lend_lent(name: &str, words: &str, player: &mut Player<'_, '_>) -> Played<()> {
    let vector = Vec::new(player.alloc);
    let is_faulty = match name {
        "BufWriter 8 &mut Vec" => false,
        "BufWriter 8 Faulty &mut Vec" => true,
        _ => return Err(Unplayed::NoStream),
    };
    player.play(&mut Lending {
        is_faulty,
        words,
        vector,
    })
}
