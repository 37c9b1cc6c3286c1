//! Plays the files of rows that its arguments name, as [`rows_play`] reads them: readers, their seeks and pieces, over
//! devices that note each call, and streams in memory.
#![tactic(auto)]

mod devices;
mod in_memory;
mod levels;
mod moving;
mod reading;
mod streams;

use devices::{Columns, Devices, Items};
use rows_play::prelude::*;
use std::process::ExitCode;

// The streams of this program.
struct Readers;

impl Streams for Readers {
    fn lend(name: &str, words: &str, player: &mut Player<'_, '_>) -> Played<()> {
        let (word, tower) = cut(name, " ");
        let columns = match word {
            _ if in_memory::has(name) => Columns::Memory,
            "answers" => Columns::Answers,
            "noted" => Columns::Calls,
            _ => Columns::Levels,
        };
        let script = if columns == Columns::Memory {
            ""
        } else {
            words
        };
        let journal = new_journal(player.alloc, script)?;
        let devices = Devices {
            alloc: player.alloc,
            columns,
            items: match word {
                "bytes" => Items::Bytes,
                "split" => Items::Pieces,
                "lines" => Items::Lines,
                _ => Items::Calls,
            },
            words,
            journal: &journal,
        };
        if columns == Columns::Memory {
            return in_memory::lend(word, tower, &devices, player);
        }
        match word {
            "noted" => reading::lend_noted(tower, &devices, player),
            "seeker" => reading::lend_seeker(tower, &devices, player),
            "moved" => moving::lend(&devices, player),
            _ => reading::lend(tower, &devices, player),
        }
    }
}

fn main(rt: HostRuntime) -> ExitCode {
    play_files::<Readers>(&rt)
}
