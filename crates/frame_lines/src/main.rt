//! Reads frames from standard input, and prints a line for each: its payload, with each byte escaped that is not
//! printable ASCII. A frame is a length, as a little-endian `u32`, followed by that many bytes.
//!
//! The status is 0 if the input ends after a frame, 1 after a fault, whose text is printed to standard error, and 2 if
//! there is an argument. If a line does not go out whole, its rest is tried once more before the next frame is read. The
//! only arguments are `--help` and `--version`, of which it prints the first one, and reads nothing.
#![tactic(auto)]

ghost use Rattle.std.specs.{Prelude.{◌≡◌, [], OnOk, replicate}, Vec.Iter.{into_iter_items}};
ghost use Rattle.line_log.specs.Log.{log_tells};
ghost use Rattle.system_streams.specs.contracts.patient.Patient.{the_row as patient-row};
ghost use Rattle.frame_lines.specs.{Asking.{AsksFor}, Printing.{PrintsPayload, PrintsFrames, PrintsAll}, Fits.{FramesFit, LogFits}};

#[cfg(test)]
mod tests;

use cli::{Reason, about, arguments, report, usage};
use framing::FrameReader;
use line_log::LineLog;
use no_std_io2::io::{Read, Result, Write};
use std::alloc::Global;
use std::env;
use std::process::ExitCode;
use std::rt::Env;
use system_streams::{Patient, SystemRead, SystemWrite, stdin, stdout};

const USAGE: &str = "usage: frame_lines";

// What `--help` prints.
const HELP: &str = "\
Usage: frame_lines
Reads frames from standard input, and prints a line for each: its payload, with
each byte escaped that is not printable ASCII.

A frame is a length, as a little-endian u32, followed by that many bytes, of
which there are at most 4,096.

  --help     prints this text
  --version  prints the version
";

// The longest payload, in bytes.
const LIMIT: usize = 4096;

// The buffer of the log: four bytes for each of a payload, a newline, and one more.
const LINE: usize = 4 * LIMIT + 2;

// What the arguments ask for.
#[derive(Drop)]
enum Command {
    Print,
    // The first argument after the program's name.
    Word(String),
}

// Returns what the arguments ask for.
fn command_of(mut words: env::Args) -> Command
    ensures { AsksFor result (into_iter_items words) }
{
    let _program = words.next();
    match words.next() {
        Some(word) => Command::Word(word),
        None => Command::Print,
    }
}

// Returns the command, or `None` if an argument is not UTF-8.
fn asked<R: Env + Alloc<A = Global>>(rt: &R) -> Result<Option<Command>> {
    match arguments(env::args(rt))? {
        Some(words) => Ok(Some(command_of(words))),
        None => Ok(None),
    }
}

// Prints a line, and tries once more what did not go out.
fn print_line<W: Write + Drop>(lines: &mut LineLog<W, LINE>, payload: &[u8]) -> Result<()>
    requires log { LogFits W.row }
    // After `Ok`, the writer below the log has the whole line.
    ensures { OnOk result (PrintsPayload W.Write lines.old lines.new) }
{
    lines.log_text(payload.escape_ascii())?;
    if lines.is_behind() {
        return lines.flush();
    }
    Ok(())
}

// Prints a line for each frame.
fn print_frames<R: Read + Drop, W: Write + Drop>(
    frames: &mut FrameReader<R, 512>,
    lines: &mut LineLog<W, LINE>,
) -> Result<()>
    requires frames { FramesFit R.row }
    requires log { LogFits W.row }
    // One line is printed for each frame, in order, and the log is flushed once, at the end.
    ensures prints { PrintsFrames R.Read W.Write frames.old (replicate 4096 0) lines.old
        result frames.new lines.new }
    // After `Ok`, the log and the writer below it have sent all that they held.
    ensures flushed { OnOk result ((log_tells W.told lines.new).held ≡ []) }
{
    let mut room = [0u8; LIMIT];
    'frames: while let Some(len) = frames.next(&mut room)? {
        print_line(lines, &room[..len])?;
    }
    lines.flush()
}

// Prints a line for each frame, and returns the reason of the stream that failed.
fn print_all<D: SystemRead + Drop, E: SystemWrite + Drop>(
    frames: &mut FrameReader<Patient<D>, 512>,
    lines: &mut LineLog<Patient<E>, LINE>,
) -> std::result::Result<(), Reason>
    requires frames { FramesFit (patient-row D.row) }
    requires log { LogFits (patient-row E.row) }
    ensures { PrintsAll ⟦<Patient<D> as Read>⟧ ⟦<Patient<E> as Write>⟧
        frames.old lines.old result frames.new lines.new }
{
    match print_frames(frames, lines) {
        Ok(()) => Ok(()),
        Err(e) => Err(Reason::of_either(frames.get_ref(), lines.get_ref(), e)),
    }
}

fn run(rt: &HostRuntime) -> std::result::Result<(), Reason> {
    let mut frames = FrameReader::<_, 512>::new(stdin(rt));
    let mut lines = LineLog::<_, LINE>::new(stdout(rt));
    print_all(&mut frames, &mut lines)
}

fn main(rt: HostRuntime) -> ExitCode {
    match asked(&rt) {
        Ok(Some(Command::Print)) => report(&rt, "frame_lines", run(&rt)),
        Ok(Some(Command::Word(word))) => match about(&rt, "frame_lines", HELP, word.as_str()) {
            Some(told) => told,
            None => usage(&rt, USAGE),
        },
        Ok(None) => usage(&rt, USAGE),
        Err(error) => report(&rt, "frame_lines", Err(error)),
    }
}
