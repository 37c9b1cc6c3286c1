// `run_reads` on a buffered reader of 4 bytes over a slice whose reads are counted. A row is `run` and the asks; then
// how many met the end and how many failed, how many inner reads there were of how many that there may be, and the state
// of each level.
ghost use Rattle.io_bench.specs.Asks.{AllFit, Fits};

use crate::devices::Devices;
use io_bench::{Ask, Tally, run_reads};
use no_std_io2::io::BufReader;
use rows_play::prelude::*;
use std::alloc::Global;

// The most bytes of an ask.
const ROOM: usize = 16;

const SIZE: usize = 4;

// Returns an ask, for a read of at most `ROOM` bytes.
fn ask_of(words: &str, line: &mut Line) -> Ask
    ensures { Fits 16 result }
{
    let (word, count) = cut(words, " ");
    match (word, count.parse::<usize>()) {
        ("read", Ok(count)) => Ask::Read(count.min(ROOM)),
        ("exact", Ok(count)) => Ask::Exact(count.min(ROOM)),
        ("fill", Ok(count)) => Ask::Fill(count),
        _ => {
            line.tell(Unplayed::NoCall);
            Ask::Fill(0)
        }
    }
}

// Returns the asks of a row.
#[tactic(auto, using(crate::proofs::AsksFit::all_fit_then))]
fn asks_of(alloc: Global, words: &str, line: &mut Line) -> Vec<Ask>
    ensures { AllFit 16 result.items }
{
    let mut asks = Vec::new(alloc);
    if words.is_empty() {
        return asks;
    }
    'asks: for words in words.split(", ") {
        let ask = ask_of(words, line);
        if asks.push(ask).is_err() {
            line.cut();
        }
    }
    asks
}

// A buffered reader, and how many inner reads the rows so far made.
#[derive(Drop)]
struct Asking<'a, 'j> {
    reader: BufReader<Tally<&'a [u8]>, SIZE>,
    devices: Devices<'j>,
}

impl<'a, 'j> Asking<'a, 'j> {
    // Returns how many bytes are held or left.
    fn to_come(&self) -> usize {
        let left = self.reader.get_ref().get_ref().len();
        left.wrapping_add(self.reader.buffer().len())
    }
}

impl<'a, 'j> Stream for Asking<'a, 'j> {
    fn play(&mut self, call: &Call<'_>, line: &mut Line) {
        let (reads, before) = (self.reader.get_ref().reads(), self.to_come());
        let asks = asks_of(call.alloc, call.rest, line);
        let totals = run_reads(&mut self.reader, &asks, &mut [0; ROOM]);
        let taken = before.wrapping_sub(self.to_come());
        line.value(totals.at_end);
        line.word(", ");
        line.value(totals.failed);
        line.value_column(self.reader.get_ref().reads().wrapping_sub(reads));
        line.word(" of ");
        let most = (taken / SIZE) as u64;
        line.value(most.wrapping_add(totals.at_end).wrapping_add(1));
        self.devices.show(&self.reader, line);
    }
}

/// Lends a buffered reader over these bytes.
pub fn lend(devices: &Devices<'_>, player: &mut Player<'_, '_>) -> Played<()> {
    let bytes = unescape(player.alloc, devices.words)?;
    let reader = BufReader::new(Tally::new(bytes.as_slice()));
    player.play(&mut Asking {
        reader,
        devices: *devices,
    })
}
