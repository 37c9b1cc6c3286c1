// Rows of streams in memory. A feed gives bytes and failures, `4: x, Interrupted, y`, in pieces of at most 4 bytes.
mod asks;
mod cursors;
mod trials;
mod vectors;
mod wrapped;

use crate::devices::Devices;
use crate::streams::{play_buffered, play_chain, play_lending, play_limited, play_reading};
use io_bench::{Event, Feed};
use no_std_io2::io::{BufRead, BufReader, Chain, Cursor, Read, repeat};
use rows_play::prelude::*;
use std::alloc::Global;
use wrapped::{Held, Slice};

/// Returns whether a stream of this name is one of these; its first or last word says so.
pub fn has(name: &str) -> bool {
    let (word, _) = cut(name, " ");
    let (_, base) = cut_last(name, " ");
    matches!(word, "cursor" | "grown" | "queue" | "room" | "heap")
        || matches!(base, "Cursor" | "&[u8]" | "Repeat" | "Feed")
}

/// Makes a cursor on the text that a row's `new` says.
pub fn new_text(alloc: Global, words: &str) -> Played<Cursor<Vec<u8>>> {
    Ok(Cursor::new(unescape(alloc, words)?))
}

/// Lends the stream of this name. Its first word says which columns a row has.
pub fn lend(
    word: &str,
    name: &str,
    devices: &Devices<'_>,
    player: &mut Player<'_, '_>,
) -> Played<()> {
    match word {
        "cursor" => cursors::lend(name, devices.words, player),
        "moved" => cursors::lend_moved(devices, player),
        "seeker" => cursors::lend_seeker(name, devices, player),
        "asks" => asks::lend(devices, player),
        "grown" => vectors::lend(name, devices.words, player),
        "queue" => vectors::lend_queue(devices.words, player),
        "room" | "heap" => {
            let is_in_heap = word == "heap";
            player.play(&mut trials::Trials { name, is_in_heap })
        }
        _ => lend_reader(name, devices, player),
    }
}

// Lends the stream of this name, which ends with the name of its device.
fn lend_reader(name: &str, devices: &Devices<'_>, player: &mut Player<'_, '_>) -> Played<()> {
    let (tower, device) = cut_last(name, " ");
    match device {
        "Cursor" => lend_text(tower, devices, player),
        "&[u8]" if tower.starts_with("Chain of") => lend_slices(tower, devices, player),
        "&[u8]" => lend_slice(tower, devices, player),
        "Repeat" => lend_repeat(devices, player),
        "Feed" => lend_feed(tower, devices, player),
        _ => Err(Unplayed::NoStream),
    }
}

fn lend_text(tower: &str, devices: &Devices<'_>, player: &mut Player<'_, '_>) -> Played<()> {
    let (first, second) = cut_last(devices.words, " + ");
    let second = new_text(player.alloc, second)?;
    match tower {
        "" => play_lending(second, devices, player),
        "Take" => play_limited(second, 2, devices, player),
        "Chain Cursor" => play_chain(new_text(player.alloc, first)?, second, devices, player),
        // a boxed slice, which is `ab`
        "Chain Box &[u8] Box" => {
            let first: Box<dyn Read + Drop> = Box::new(player.alloc, Slice { bytes: b"ab" })?;
            let second: Box<dyn Read + Drop> = Box::new(player.alloc, second)?;
            play_reading(first.chain(second), devices, player)
        }
        "Box BufReader 4" => {
            let reader = BufReader::new(second);
            let object: Box<dyn BufRead + Drop> = Box::new(player.alloc, Held { reader })?;
            play_lending(object, devices, player)
        }
        _ => Err(Unplayed::NoStream),
    }
}

// Lends a feed, below a limit that stands before its words: `2 of 4: x, Interrupted`.
fn lend_feed(tower: &str, devices: &Devices<'_>, player: &mut Player<'_, '_>) -> Played<()> {
    let (limit, words) = devices
        .words
        .split_once(" of ")
        .unwrap_or(("0", devices.words));
    let feed = new_feed(player.alloc, words)?;
    let Ok(limit) = limit.parse::<u64>() else {
        return Err(Unplayed::NoNumber);
    };
    match tower {
        "" => play_reading(feed, devices, player),
        "BufReader 1" => play_buffered::<Feed, 1>(feed, devices, player),
        "BufReader 2" => play_buffered::<Feed, 2>(feed, devices, player),
        "BufReader 4" => play_buffered::<Feed, 4>(feed, devices, player),
        "Take" => play_reading(feed.take(limit), devices, player),
        "Take BufReader 1" => {
            play_limited(BufReader::<Feed, 1>::new(feed), limit, devices, player)
        }
        _ => Err(Unplayed::NoStream),
    }
}

fn lend_slice(tower: &str, devices: &Devices<'_>, player: &mut Player<'_, '_>) -> Played<()> {
    let (first, second) = cut_last(devices.words, " + ");
    let bytes = unescape(player.alloc, second)?;
    let slice = bytes.as_slice();
    match tower {
        "" => play_lending(slice, devices, player),
        "Chain &[u8]" => {
            let first = unescape(player.alloc, first)?;
            play_chain(first.as_slice(), slice, devices, player)
        }
        "Chain Feed" => {
            play_reading(new_feed(player.alloc, first)?.chain(slice), devices, player)
        }
        _ => Err(Unplayed::NoStream),
    }
}

// Lends a byte as often as the number behind it says.
fn lend_repeat(devices: &Devices<'_>, player: &mut Player<'_, '_>) -> Played<()> {
    let (byte, len) = cut_last(devices.words, " ");
    match (byte.as_bytes().first(), len.parse::<u64>()) {
        (Some(byte), Ok(len)) => play_reading(repeat(*byte, len), devices, player),
        _ => Err(Unplayed::NoNumber),
    }
}

type Two<'a> = Chain<&'a [u8], &'a [u8]>;

fn two<'a>(words: &'a str) -> Two<'a> {
    let (first, second) = cut_last(words, " + ");
    first.as_bytes().chain(second.as_bytes())
}

// Lends a chain of three or four slices.
fn lend_slices(tower: &str, devices: &Devices<'_>, player: &mut Player<'_, '_>) -> Played<()> {
    let (words, last) = cut_last(devices.words, " + ");
    match tower {
        "Chain of 3" => play_chain(two(words), last.as_bytes(), devices, player),
        "Chain of 4" => {
            let (words, third) = cut_last(words, " + ");
            play_chain(
                two(words).chain(third.as_bytes()),
                last.as_bytes(),
                devices,
                player,
            )
        }
        _ => Err(Unplayed::NoStream),
    }
}

// Makes the feed that these words say.
fn new_feed(alloc: Global, words: &str) -> Played<Feed> {
    let (piece, events) = cut(words, ": ");
    let events = parse_list(alloc, events)?;
    match piece.parse::<usize>() {
        Ok(n) if n > 0 => Ok(Feed::new(events, n)),
        _ => Err(Unplayed::NoNumber),
    }
}

fn show_event(event: Event, line: &mut Line) {
    match event {
        Event::Byte(byte) => line.bytes(&[byte]),
        Event::Fail(kind) => line.name(&kind),
    }
}

/// Prints the events that are left, or a dash if there are none.
pub fn show_left(events: &[Event], line: &mut Line) {
    if events.is_empty() {
        line.word("-");
    }
    'events: for (i, event) in events.iter().enumerate() {
        if i > 0 {
            line.word(", ");
        }
        show_event(*event, line);
    }
}
