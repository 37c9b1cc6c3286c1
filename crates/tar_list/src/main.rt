//! `tar_list` lists the members of the tar archive on standard input, one in each line: its size and its name.
//! `tar_list NAME` copies the member with this name to standard output.
//!
//! The status is 0 if the archive was read to its end or the member was copied, 1 after a fault, whose text is printed
//! to standard error, and 2 if there are more arguments or one is not UTF-8. `--help` and `--version` are no names of
//! members: it prints that, and reads no archive.
#![tactic(auto)]

ghost use Rattle.std.specs.{Prelude.{◌≡◌, ◌<◌, length, IfSome, IfNone}, Vec.Iter.{into_iter_items}};
ghost use Rattle.tar_list.specs.{Words.{Asks}, Listing.{PrintsMember, Lists, CopiesMember}, Failing.{CopyFails, failure_text}};
ghost use Rattle.tar_list.specs.declared.CopyFault.TheVariants.{Stream as StreamFault};
ghost use Rattle.system_streams.specs.Patient.{patient_error};

use cli::{Reason, about, arguments, report, usage};
use no_std_io2::io::{
    BufRead, BufReader, BufWriter, Error, ErrorKind, Read, Result, Take, Write, copy,
};
use std::alloc::Global;
use std::fmt::Display;
use std::process::ExitCode;
use std::rt::Env;
use std::{env, fmt};
use system_streams::{Patient, stdin, stdout};
use tar::{Archive, Header, Kind};

const USAGE: &str = "usage: tar_list [NAME]";

// What `--help` prints.
const HELP: &str = "\
Usage: tar_list [NAME]
Lists the members of the tar archive on standard input, one in each line: its
size in bytes and its name.

With NAME, it copies the member of this name to standard output.

  --help     prints this text
  --version  prints the version
";

// The size in bytes of each buffer: of the archive, of the copy of a member, and of the output.
const BUFFER: usize = 65536;

// What the arguments ask for.
#[derive(Drop)]
enum Command {
    List,
    Copy(String),
}

// Returns what the arguments ask for, or `None` if there are more than a name.
fn command_of(mut words: env::Args) -> Option<Command>
    ensures some { IfSome result (λ command. Asks command (into_iter_items words)) }
    ensures none { IfNone result (2 < length (into_iter_items words)) }
{
    let _program = words.next();
    let Some(name) = words.next() else {
        return Some(Command::List);
    };
    if words.next().is_some() {
        return None;
    }
    Some(Command::Copy(name))
}

// Returns the command, or `None` if the arguments are no command or not UTF-8.
fn asked<R: Env + Alloc<A = Global>>(rt: &R) -> Result<Option<Command>> {
    match arguments(env::args(rt))? {
        Some(words) => Ok(command_of(words)),
        None => Ok(None),
    }
}

// Prints the line of a member: its size and its name.
fn print_line<W: Write>(header: &Header, out: &mut W) -> Result<()>
    ensures { PrintsMember header.now (W.told out.old) result (W.told out.new) }
{
    write!(out, "{} ", header.member_len())?;
    out.write_all(header.name.as_slice())?;
    out.write_all(b"\n")
}

// Prints the line of each member, and flushes.
fn list<R: BufRead, W: Write>(archive: &mut Archive<R>, out: &mut W) -> Result<()>
    ensures { Lists R.Read archive.old (W.told out.old) result archive.new (W.told out.new) }
{
    'members: while let Some(header) = archive.next()? {
        print_line(&header, out)?;
    }
    out.flush()
}

// Why a copy of a member failed.
#[derive(Drop)]
enum CopyFault {
    // No member has this name, it is a directory, or the archive ends inside it.
    Member(Error),
    // The archive cannot be read, or the output failed.
    Stream(Error),
}

impl From<Error> for CopyFault {
    ghost from_gives = { λ e fault. fault ≡ StreamFault e };

    fn from(e: Error) -> CopyFault {
        CopyFault::Stream(e)
    }
}

// Copies the member with this name, and flushes. Returns the error of the `find`, the `copy` or the `flush` that fails,
// and an error if no member has this name, if it is a directory, or if the archive ends inside it. All its bytes up to
// there are accepted then, but are not flushed.
fn copy_member<R: BufRead, W: Write>(
    archive: &mut Archive<R>,
    name: &str,
    out: &mut W,
) -> std::result::Result<(), CopyFault>
    ensures { CopiesMember R.Read ⟦<Take<R> as Read>⟧ W.Write name.now archive.old out.old result archive.new out.new }
{
    let Some(header) = archive.find(name.as_bytes())? else {
        let text = "no member has this name";
        return Err(CopyFault::Member(Error::new(ErrorKind::NotFound, text)));
    };
    if header.kind == Kind::Directory {
        let text = "this member is a directory";
        return Err(CopyFault::Member(Error::new(ErrorKind::InvalidInput, text)));
    }
    copy::<_, _, BUFFER>(archive.member(), out)?;
    if archive.member().limit() > 0 {
        let text = "the archive ends inside a member";
        return Err(CopyFault::Member(Error::new(ErrorKind::UnexpectedEof, text)));
    }
    out.flush()?;
    Ok(())
}

// Why the program failed.
#[derive(Drop)]
enum Failure {
    // The archive cannot be read, or the output failed.
    Stream(Reason),
    // What is wrong with the member of this name.
    Member(String, Error),
}

// Prints the reason, and before it the name of a member.
impl Display for Failure {
    ghost output = { failure_text };

    fn fmt<W: fmt::Write>(&self, f: &mut fmt::Formatter<W>) -> fmt::Result {
        match self {
            Failure::Stream(why) => Display::fmt(why, f),
            Failure::Member(name, e) => write!(f, "{name}: {e}"),
        }
    }
}

// Returns why a copy of the member with this name failed: what is wrong with the member, or the reason of the stream.
fn copy_failure<D, E>(
    name: String,
    fault: CopyFault,
    input: &Patient<D>,
    output: &Patient<E>,
) -> Failure
    ensures { CopyFails name fault (patient_error input.now) (patient_error output.now) result }
{
    match fault {
        CopyFault::Member(e) => Failure::Member(name, e),
        CopyFault::Stream(e) => Failure::Stream(Reason::of_either(input, output, e)),
    }
}

fn run(rt: &HostRuntime, command: Command) -> std::result::Result<(), Failure> {
    let mut archive = Archive::new(BufReader::<_, BUFFER>::new(stdin(rt)));
    let mut out = BufWriter::<_, BUFFER>::new(stdout(rt));
    match command {
        Command::List => match list(&mut archive, &mut out) {
            Ok(()) => Ok(()),
            Err(e) => {
                let input = archive.member().get_ref().get_ref();
                Err(Failure::Stream(Reason::of_either(input, out.get_ref(), e)))
            }
        },
        Command::Copy(name) => match copy_member(&mut archive, name.as_str(), &mut out) {
            Ok(()) => Ok(()),
            Err(fault) => {
                let input = archive.member().get_ref().get_ref();
                Err(copy_failure(name, fault, input, out.get_ref()))
            }
        },
    }
}

// Answers a name that asks for the help or the version.
fn told<R: Print + Eprint>(rt: &R, command: &Command) -> Option<ExitCode> {
    match command {
        Command::List => None,
        Command::Copy(name) => about(rt, "tar_list", HELP, name.as_str()),
    }
}

fn main(rt: HostRuntime) -> ExitCode {
    match asked(&rt) {
        Ok(Some(command)) => match told(&rt, &command) {
            Some(told) => told,
            None => report(&rt, "tar_list", run(&rt, command)),
        },
        Ok(None) => usage(&rt, USAGE),
        Err(error) => report(&rt, "tar_list", Err(error)),
    }
}
