//! `iotower copy` copies standard input to standard output through a buffered writer, and `iotower
//! play` plays a script of writes on a tower of buffered writers.
//!
//! The status is 0 after success, 1 after a fault, whose text is printed to standard error, and 2
//! if the arguments are no command.
#![tactic(auto)]

ghost use Rattle.std.specs.{Prelude.{◌≡◌, length, codes, Some, IfSome, IfNone}, Process.{exit_status}, Vec.Iter.{into_iter_items}};
ghost use Rattle.no_std_io2.specs.{BufReader.{BufReaderFits}, BufWriter.{BufWriterFits}, LineWriter.{LineWriterFits}};
ghost use Rattle.cli.specs.About.{TellsLine, error_line};
ghost use Rattle.tower_play.specs.Faults.{fault_display};
ghost use Rattle.iotower.specs.{declared.Command.{Command as Asked}, Words.{verb_of, mode_of, AreWords, NamesCommand, AsksOf}};
ghost use Rattle.iotower.specs.Ending.{Does, Answers};

use cli::{SystemMessages, arguments, report, usage};
use io_bench::Faulty;
use no_std_io2::io::{Read, Write};
use std::alloc::Global;
use std::process::ExitCode;
use std::{env, io};
use system_streams::{copy_through, stdin, stdout};
use tower_play::{Fault, Shape, play};

const USAGE: &str = "usage: iotower copy buf|line, iotower play buf|line|buf-buf|line-buf";

// The command that the arguments name.
enum Command {
    Copy { line: bool },
    Play(Shape),
}

// Returns the arguments after the program's name, if there are two.
fn two_words(mut words: env::Args) -> Option<(String, String)>
    ensures two { IfSome result (λ two. AreWords (into_iter_items words) two.0 two.1) }
    // It returns `Some` if there are the program's name and two more words.
    ensures none { IfNone result (length (into_iter_items words) ≡ 3 → ⊥) }
{
    let _program = words.next();
    let verb = words.next()?;
    let mode = words.next()?;
    if words.next().is_some() {
        return None;
    }
    Some((verb, mode))
}

fn command_of(verb: &str, mode: &str) -> Option<Command>
    ensures some { IfSome result (λ command. (verb.now ≡ verb_of command) × (mode.now ≡ mode_of command)) }
    ensures none { IfNone result ((command : Asked) → verb.now ≡ verb_of command → mode.now ≡ mode_of command → ⊥) }
{
    match (verb, mode) {
        ("copy", "buf") => Some(Command::Copy { line: false }),
        ("copy", "line") => Some(Command::Copy { line: true }),
        ("play", "buf") => Some(Command::Play(Shape::Buf)),
        ("play", "line") => Some(Command::Play(Shape::Line)),
        ("play", "buf-buf") => Some(Command::Play(Shape::BufBuf)),
        ("play", "line-buf") => Some(Command::Play(Shape::LineBuf)),
        _ => None,
    }
}

// Returns the command that the arguments name.
fn named_command(words: env::Args) -> Option<Command>
    ensures some { IfSome result (λ command. NamesCommand command (into_iter_items words)) }
    ensures none { IfNone result ((command : Asked) → NamesCommand command (into_iter_items words) → ⊥) }
{
    match two_words(words) {
        Some((verb, mode)) => command_of(verb.as_str(), mode.as_str()),
        None => None,
    }
}

// Returns the command, or `None` if the arguments are no command or not UTF-8. If memory for them was refused, that is
// a fault.
fn asked(found: io::Result<env::Args>) -> Result<Option<Command>, Fault>
    ensures { AsksOf into_iter_items found result }
{
    match arguments(found) {
        Ok(Some(words)) => Ok(named_command(words)),
        Ok(None) => Ok(None),
        Err(refused) => Err(Fault::Io(refused)),
    }
}

// Does what a command says, from this input to this output, and returns the output.
fn run<R: Read + Drop, W: Write + Drop>(
    alloc: Global,
    command: Command,
    input: R,
    output: W,
) -> Result<W, Fault>
    requires reader_fits { BufReaderFits R.row 64 }
    requires buffer_fits { BufWriterFits W.row 64 }
    requires lines_fit { LineWriterFits W.row 64 }
    ensures { Does ⟦<Faulty<Vec<u8>> as Write>⟧ R.Read W.Write command input output result }
{
    match command {
        Command::Copy { line } => match copy_through(input, output, line) {
            Ok((_count, output)) => Ok(output),
            Err(fault) => Err(Fault::Io(fault)),
        },
        Command::Play(shape) => play(alloc, input, output, shape),
    }
}

// Tells a fault, and returns the status after it.
fn failed<R: SystemMessages>(rt: &R, fault: Fault) -> ExitCode
    ensures status { exit_status result ≡ 1 }
    ensures told { TellsLine R.may_tell rt.now (error_line (codes "iotower") (Some (fault_display fault))) }
{
    let ran: Result<(), Fault> = Err(fault);
    report(rt, "iotower", ran)
}

// Does what the arguments ask for, from this input to this output, and returns the status.
fn answer<S: SystemMessages, R: Read + Drop, W: Write + Drop>(
    rt: &S,
    alloc: Global,
    found: io::Result<env::Args>,
    input: R,
    output: W,
) -> ExitCode
    requires reader_fits { BufReaderFits R.row 64 }
    requires buffer_fits { BufWriterFits W.row 64 }
    requires lines_fit { LineWriterFits W.row 64 }
    ensures { Answers S.may_tell rt.now ⟦<Faulty<Vec<u8>> as Write>⟧ R.Read W.Write into_iter_items found input output result }
{
    match asked(found) {
        Ok(Some(command)) => match run(alloc, command, input, output) {
            Ok(_output) => ExitCode::SUCCESS,
            Err(fault) => failed(rt, fault),
        },
        Ok(None) => usage(rt, USAGE),
        Err(fault) => failed(rt, fault),
    }
}

fn main(rt: HostRuntime) -> ExitCode {
    answer(&rt, rt.alloc(), env::args(&rt), stdin(&rt), stdout(&rt))
}
