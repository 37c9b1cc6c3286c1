// A level over a device. The name of the level is its kind and its size.
ghost use Rattle.no_std_io2.specs.{BufWriter.{BufWriterFits}, LineWriter.{LineWriterFits}};
ghost use Rattle.std.specs.Prelude.{◌<◌, ◌^◌};

use crate::benches::new_faulty;
use crate::devices::{new_device, new_recorder};
use crate::tower::Tower;
use crate::writing::{Columns, play, play_seeking};
use io_bench::{Faulty, Tally};
use no_std_io2::io::{BufWriter, LineWriter, Seek, Sink};
use rows_play::prelude::*;

/// The bases of levels: a recorder; a device that also notes the name of each call; a vector; one that fails as its acts
/// say; the same, where each run prints whether it keeps to the laws; the same, below a buffer of the level's own size; and
/// a sink whose writes are counted.
pub const RECORDER: usize = 0;

pub const NOTED: usize = 1;

pub const VECTOR: usize = 2;

pub const FAULTY: usize = 3;

pub const LAWFUL: usize = 4;

pub const LAWFUL_BUFFERED: usize = 5;

pub const COUNTED: usize = 6;

/// Lends a level over one of these devices, or, if the level has no name, the device itself.
pub fn lend<const BASE: usize>(
    level: &str,
    words: &str,
    player: &mut Player<'_, '_>,
) -> Played<()> {
    let (kind, size) = cut(level, " ");
    match size {
        "" | "0" => lend_size::<BASE, 0>(kind, words, player),
        "1" => lend_size::<BASE, 1>(kind, words, player),
        "2" => lend_size::<BASE, 2>(kind, words, player),
        "4" => lend_size::<BASE, 4>(kind, words, player),
        "8" => lend_size::<BASE, 8>(kind, words, player),
        "64" => lend_size::<BASE, 64>(kind, words, player),
        "300" => lend_size::<BASE, 300>(kind, words, player),
        _ => Err(Unplayed::NoStream),
    }
}

fn lend_size<const BASE: usize, const S: usize>(
    kind: &str,
    words: &str,
    player: &mut Player<'_, '_>,
) -> Played<()> {
    if S >= 1 << 32 {
        return Err(Unplayed::NoStream);
    }
    match BASE {
        RECORDER => lend_recorder::<S>(kind, words, player),
        NOTED => lend_device::<S>(kind, words, player),
        VECTOR => lend_vector::<S>(kind, words, player),
        FAULTY => lend_faulty::<S>(kind, words, Columns::State, player),
        LAWFUL => lend_faulty::<S>(kind, words, Columns::Laws, player),
        LAWFUL_BUFFERED => lend_buffered::<S>(kind, words, player),
        _ => lend_counted::<S>(kind, player),
    }
}

/// Plays the rows on a level over a base.
pub fn play_level<W: Tower, const S: usize>(
    kind: &str,
    base: W,
    columns: Columns,
    player: &mut Player<'_, '_>,
) -> Played<()>
    requires buffer { BufWriterFits W.row S }
    requires lines { LineWriterFits W.row S }
{
    match kind {
        "" => play(base, columns, player),
        "BufWriter" => play(BufWriter::<W, S>::new(base), columns, player),
        "LineWriter" => play(LineWriter::<W, S>::new(base), columns, player),
        _ => Err(Unplayed::NoStream),
    }
}

// Plays the rows on a level over a base that seeks, so that a buffer seeks too.
fn play_seeking_level<W: Tower + Seek, const S: usize>(
    kind: &str,
    base: W,
    columns: Columns,
    player: &mut Player<'_, '_>,
) -> Played<()>
    requires buffer { BufWriterFits W.row S }
    requires lines { LineWriterFits W.row S }
{
    match kind {
        "BufWriter" => play_seeking(BufWriter::<W, S>::new(base), columns, player),
        _ => play_level::<W, S>(kind, base, columns, player),
    }
}

fn lend_recorder<const S: usize>(kind: &str, words: &str, player: &mut Player<'_, '_>) -> Played<()>
    requires { S < 2 ^ 32 }
{
    let journal = new_journal(player.alloc, words)?;
    let recorder = new_recorder(player.alloc, &journal)?;
    play_seeking_level::<_, S>(kind, recorder, Columns::All(journal, 1), player)
}

fn lend_device<const S: usize>(kind: &str, words: &str, player: &mut Player<'_, '_>) -> Played<()>
    requires { S < 2 ^ 32 }
{
    let journal = new_journal(player.alloc, words)?;
    let device = new_device(player.alloc, &journal)?;
    play_seeking_level::<_, S>(kind, device, Columns::Calls(journal), player)
}

fn lend_vector<const S: usize>(kind: &str, words: &str, player: &mut Player<'_, '_>) -> Played<()>
    requires { S < 2 ^ 32 }
{
    let content = unescape(player.alloc, words)?;
    play_level::<_, S>(kind, content, Columns::State, player)
}

fn lend_faulty<const S: usize>(
    kind: &str,
    words: &str,
    columns: Columns,
    player: &mut Player<'_, '_>,
) -> Played<()>
    requires { S < 2 ^ 32 }
{
    let device = new_faulty(player.alloc, words)?;
    play_level::<_, S>(kind, device, columns, player)
}

fn lend_buffered<const S: usize>(kind: &str, words: &str, player: &mut Player<'_, '_>) -> Played<()>
    requires { S < 2 ^ 32 }
{
    let device = new_faulty(player.alloc, words)?;
    let below = BufWriter::<Faulty<Vec<u8>>, S>::new(device);
    play_level::<_, S>(kind, below, Columns::Laws, player)
}

fn lend_counted<const S: usize>(kind: &str, player: &mut Player<'_, '_>) -> Played<()>
    requires { S < 2 ^ 32 }
{
    play_level::<_, S>(kind, Tally::new(Sink::new()), Columns::State, player)
}
