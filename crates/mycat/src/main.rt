//! Writes files to standard output, one after the other, like Unix's `cat`. The argument `-` is standard input, which
//! is also read if there are no arguments.
//!
//! If a file cannot be opened or read, its name and the system's reason go to standard error, and the next file
//! follows. If standard output fails, the reason goes to standard error, and no file follows; if it is a pipe that
//! nobody reads any more, the program stops without a message. The status is 0 if nothing failed, and else 1.
//!
//! If the first argument is `--help` or `--version`, it prints that, and reads no file.
#![tactic(auto)]

ghost use Rattle.std.specs.Prelude.{◌≡◌, ◌≢◌, Ok, true, [], ◌∷◌, length, IfErr, IfOk, drop, map, codes, string_bytes};
ghost use Rattle.std.specs.{Vec.Iter.{into_iter_items}, Process.{exit_status}, IoError.{error_kind as std_error_kind}};
ghost use Rattle.mycat.specs.Passing.{PassesStream, WritesFile, TellsSome};

use cli::{FileFault, PerFile, SystemMessages, SystemOutput, about, each_file, named, report};
use no_std_io2::io::{CopyError, Read, Write, copy_with};
use std::alloc::Global;
use std::io::{ErrorKind, Input};
use std::process::ExitCode;
use std::rt::{Env, Files};
use std::{env, io};
use system_streams::{Patient, SystemRead, SystemWrite, open, stdin, stdout};

// What `--help` prints.
const HELP: &str = "\
Usage: mycat [FILE]...
Writes files to standard output, one after the other.

With no FILE, or if FILE is -, it writes standard input.

  --help     prints this text, if it is the first argument
  --version  prints the version, if it is the first argument
";

// The size of the buffer, in bytes.
const ROOM: usize = 131_072;

// Writes all of one stream to another, through this buffer.
fn pass<D: SystemRead, E: SystemWrite>(
    input: &mut Patient<D>,
    out: &mut Patient<E>,
    room: &mut [u8],
) -> Result<(), FileFault<io::Error>>
    ensures { PassesStream ⟦<Patient<D> as Read>⟧ ⟦<Patient<E> as Write>⟧ (length room.old) input.old out.old
        result input.new out.new }
{
    match copy_with(input, out, room) {
        Ok(_) => Ok(()),
        Err(CopyError::Read(e)) => Err(FileFault::File(input.reason(e))),
        Err(CopyError::Write(e)) => Err(FileFault::Output(out.reason(e))),
    }
}

// Returns a name as a message shows it.
fn shown(name: &str) -> &str {
    if name.is_empty() { "''" } else { name }
}

// A run: where the files are, where they go, and the buffer between.
#[derive(Drop)]
struct Run<'a, R, E> {
    rt: &'a R,
    out: Patient<E>,
    room: [u8; ROOM],
}

impl<R: Files + Input + SystemMessages, E: SystemWrite> PerFile for Run<'_, R, E> {
    type Reason = io::Error;

    // The file is written, or standard input if its name is `-`.
    ghost may_try = { λ old name reply new. WritesFile ⟦<Patient<R::Reader> as Read>⟧ ⟦<Patient<R::File> as Read>⟧
        ⟦<Patient<E> as Write>⟧ (length old.room) name old.out reply new.out };

    // A line goes to standard error, and nothing to standard output.
    ghost may_tell_of = { λ old _ _ new. (new ≡ old) × TellsSome R.may_tell old.rt.now };

    fn try_file(&mut self, name: &str) -> Result<(), FileFault<io::Error>> {
        if name == "-" {
            return pass(&mut stdin(self.rt), &mut self.out, &mut self.room);
        }
        match open(self.rt, name) {
            Ok(mut file) => pass(&mut file, &mut self.out, &mut self.room),
            Err(e) => Err(FileFault::File(e)),
        }
    }

    fn tell_of(&mut self, name: &str, why: io::Error) {
        let _ = self.rt.tell(format_args!("mycat: {}: {why}", shown(name)));
    }
}

// Returns the arguments after the program's name, and `-` if there are none.
fn files(alloc: Global, words: env::Args) -> io::Result<Vec<String>>
    ensures given { IfOk result (λ names. drop 1 (into_iter_items words) ≢ [] → names.items ≡ drop 1 (into_iter_items words)) }
    ensures none { IfOk result (λ names. drop 1 (into_iter_items words) ≡ [] → map string_bytes names.items ≡ codes "-" ∷ []) }
{
    let mut names = named(alloc, words)?;
    if names.is_empty() {
        names.push(String::from_str(alloc, "-")?)?;
    }
    Ok(names)
}

fn names<R: Env + Alloc<A = Global>>(rt: &R) -> io::Result<Vec<String>> {
    files(rt.alloc(), env::args(rt)?)
}

// Writes the files with these names, and returns whether none failed.
fn write_files(rt: &HostRuntime, names: &[String]) -> io::Result<bool> {
    let mut run = Run {
        rt,
        out: stdout(rt),
        room: [0; ROOM],
    };
    each_file(&mut run, names)
}

// Answers the first argument, if it asks for the help or the version.
fn told<R: SystemOutput + SystemMessages>(rt: &R, names: &[String]) -> Option<ExitCode> {
    about(rt, "mycat", HELP, names.first()?.as_str())
}

// Returns the status of a run. If standard output failed, it tells why, unless it is a pipe that nobody reads any more.
fn status<R: SystemMessages>(rt: &R, ran: io::Result<bool>) -> ExitCode
    ensures done { ran ≡ Ok true → exit_status result ≡ 0 }
    ensures failed { ran ≢ Ok true → exit_status result ≡ 1 }
    ensures told { IfErr ran (λ e. std_error_kind e ≢ ErrorKind.BrokenPipe → TellsSome R.may_tell rt.now) }
{
    match ran {
        Ok(true) => ExitCode::SUCCESS,
        Ok(false) => ExitCode::FAILURE,
        Err(e) => {
            if e.kind() != ErrorKind::BrokenPipe {
                let _ = rt.tell(format_args!("mycat: write error: {e}"));
            }
            ExitCode::FAILURE
        }
    }
}

fn main(rt: HostRuntime) -> ExitCode {
    match names(&rt) {
        Ok(names) => match told(&rt, names.as_slice()) {
            Some(told) => told,
            None => status(&rt, write_files(&rt, names.as_slice())),
        },
        Err(e) => report(&rt, "mycat", Err(e)),
    }
}
