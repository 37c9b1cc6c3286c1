//! Plays the files of rows that its arguments name, as [`rows_play`] reads them: writers over devices that note each
//! call or fail, runs of them, and writers over memory that runs out.
#![tactic(auto)]

mod benches;
mod devices;
mod heaps;
mod levels;
mod runs;
mod tower;
mod writing;

use rows_play::prelude::*;
use std::process::ExitCode;

// The streams of this program. The first word says which columns a row has.
struct Writers;

impl Streams for Writers {
    fn lend(name: &str, words: &str, player: &mut Player<'_, '_>) -> Played<()> {
        let (word, rest) = cut(name, " ");
        match word {
            "writer" | "seeker" => devices::lend_recorder(rest, words, player),
            "noted" => devices::lend_device(rest, words, player),
            "bench" => benches::lend(rest, words, player),
            "laws" => benches::lend_lawful(rest, words, player),
            "lent" => benches::lend_lent(rest, words, player),
            "heap" => heaps::lend(rest, words, player),
            "joined" => runs::lend_joined(player),
            "closed" => runs::lend_closed(rest, player),
            _ => Err(Unplayed::NoStream),
        }
    }
}

fn main(rt: HostRuntime) -> ExitCode {
    play_files::<Writers>(&rt)
}
