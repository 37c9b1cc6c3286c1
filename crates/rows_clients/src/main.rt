//! Plays the rows of what no clause says of the clients: the calls of a `Patient`, of `copy` and of `copy_through`, what
//! a drop sends, scripts on a tower, printed readings, a checksum, a writer over two, runs of base64 and of numbers, records
//! that become lines of a log, and two runs of frames and of lines of a log. Then it makes archives over devices that fail,
//! and calls that allocate, which standard input names. Without an argument it makes only these, and no allocation of its own.
#![tactic(auto)]

mod archives;
mod client;
mod copies;
mod encoding;
mod frames;
mod from_examples;
mod memory;
mod playing;
mod records;

use rows_play::prelude::*;
use std::env::{Env, FillError};
use std::process::ExitCode;

// The streams of this program.
struct Clients;

impl Streams for Clients {
    fn lend(name: &str, words: &str, player: &mut Player<'_, '_>) -> Played<()> {
        match name {
            "Patient" => copies::lend_patient(words, player),
            "copy_through" => copies::lend(words, player),
            "copy_through Vec" => copies::lend_vectors(player),
            "play" => playing::lend(player),
            "write_readings" => from_examples::lend_readings(words, player),
            "copy" => copies::lend_plain(words, player),
            "LineSink" => records::lend(words, player),
            "checksum_of" => from_examples::lend_checksum(words, player),
            "Tee" => from_examples::lend_tee(words, player),
            "EncoderWriter" | "DecoderReader" | "base64" | "WriteBytesExt" | "ReadBytesExt" => {
                encoding::lend(name, words, player)
            }
            _ => frames::lend(name, words, player),
        }
    }
}

// Plays the files that the arguments name, and makes the archives.
fn play_arguments(rt: &HostRuntime) -> ExitCode {
    let played = play_files::<Clients>(rt);
    match archives::play(rt) {
        Ok(()) => played,
        Err(e) => {
            let _ = eprintln!(rt; "rows_clients: {e}");
            ExitCode::FAILURE
        }
    }
}

fn main(rt: HostRuntime) -> ExitCode {
    let is_without = matches!(rt.arg(1, &mut []), Err(FillError::NotPresent));
    if is_without || play_arguments(&rt) == ExitCode::SUCCESS {
        memory::play_input(&rt)
    } else {
        ExitCode::FAILURE
    }
}
