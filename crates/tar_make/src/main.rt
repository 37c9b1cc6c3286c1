//! `tar_make FILES..` writes a tar archive of these files, directories, symbolic links and named pipes to standard
//! output. Of a directory or a pipe it has the name alone, and not what is in it.
//!
//! Devices and sockets are left out, and so is a file that cannot be read, or that no header can hold; its name and the
//! reason go to standard error. So does a line of how many files are done, if the run takes more than two seconds, and
//! standard error is a terminal or `--progress` asks for it.
//! If a file ends earlier than it was found to, or cannot be read to its end, the rest is filled with zeros; if it is
//! longer, it is cut. The status is 0 if nothing failed, and else 1.
#![tactic(auto)]

ghost use Rattle.std.specs.{Prelude.{◌≡◌, ◌≢◌, Ok, Err, true, IfOk, IfErr, bit_and, codes}, Fs.{metadata_mode}, Process.{exit_status}};
ghost use Rattle.cli.specs.{About.{TellsLine, error_line}, Reasons.{reason_text}};
ghost use Rattle.tar_make.specs.Adding.{AddsBody, AddsHeader, AddsFile, AddsMember, EndsAll, IsHeaderFor, member_fault, progress_text};

use cli::{
    FileFault, PerFile, Reason, SystemMessages, SystemOutput, about, each_file, named, report,
};
use no_std_io2::io::{BufWriter, CopyError, Error, ErrorKind, Read, Write};
use std::alloc::Global;
use std::io::IsTerminal;
use std::os::unix::fs::{FileTypeExt, MetadataExt, PermissionsExt};
use std::process::ExitCode;
use std::rt::{Env, Files};
use std::time::Instant;
use std::{env, fs, io};
use system_streams::{Patient, SystemRead, SystemWrite, open, stdout};
use tar::{Builder, HeaderBlock, Metadata};

// What `--help` prints.
const HELP: &str = "\
Usage: tar_make [--progress] [FILE]...
Writes a tar archive of files, directories, symbolic links and named pipes to
standard output. Of a directory it has the name, and not what is in it.

  --progress  shows how many files are done, also if standard error is no
              terminal, if it is the first argument
  --help      prints this text, if it is the first argument
  --version   prints the version, if it is the first argument
";

// The size in bytes of the archive's buffer.
const BUFFER: usize = 65536;

// Returns the permissions and the time of a file. A time before 1970 is 1970.
fn described(found: &fs::Metadata) -> Metadata
    ensures { result.mode ≡ bit_and (metadata_mode found.now) 0o7777 }
{
    Metadata {
        mode: found.permissions().mode() & 0o7777,
        mtime: u64::try_from(found.mtime()).unwrap_or(0),
    }
}

// Returns the header that was made, or why there is none.
fn header_or_reason(made: no_std_io2::io::Result<HeaderBlock>) -> Result<HeaderBlock, Reason>
    ensures { IfOk result (λ header. made ≡ Ok header) }
{
    match made {
        Ok(header) => Ok(header),
        Err(e) => Err(Reason::Own(e)),
    }
}

// Returns the header of a file, a directory, a symbolic link or a named pipe.
fn header_of(rt: &HostRuntime, name: &str, found: &fs::Metadata) -> Result<HeaderBlock, Reason>
    ensures { IfOk result (IsHeaderFor name.now found.now) }
{
    let metadata = described(found);
    let bytes = name.as_bytes();
    if found.is_symlink() {
        return match rt.read_link(rt.alloc(), name) {
            Ok(target) => {
                header_or_reason(HeaderBlock::symlink(
                    bytes,
                    target.as_os_str().as_bytes(),
                    metadata,
                ))
            }
            Err(e) => Err(Reason::System(e)),
        };
    }
    if found.is_dir() {
        return header_or_reason(HeaderBlock::directory(bytes, metadata));
    }
    if found.file_type().is_fifo() {
        return header_or_reason(HeaderBlock::fifo(bytes, metadata));
    }
    if !found.is_file() {
        let text = "devices and sockets are left out";
        return Err(Reason::Own(Error::new(ErrorKind::InvalidInput, text)));
    }
    header_or_reason(HeaderBlock::file(bytes, found.len(), metadata))
}

// Appends the bytes of a file. What it lacks is filled with zeros.
fn add_body<D: SystemRead + Drop, E: SystemWrite + Drop, const S: usize>(
    archive: &mut Builder<Patient<E>, S>,
    body: &mut Patient<D>,
) -> Result<(), FileFault<Reason>>
    ensures { AddsBody ⟦<Patient<D> as Read>⟧ ⟦<Patient<E> as Write>⟧ body.old archive.old result body.new archive.new }
{
    match archive.append_filled(body) {
        Ok(()) => Ok(()),
        Err(CopyError::Read(e)) => Err(FileFault::File(Reason::of(body, e))),
        Err(CopyError::Write(e)) => Err(FileFault::Output(Reason::of(archive.get_ref(), e))),
    }
}

// Appends a header.
fn add_header<E: SystemWrite + Drop, const S: usize>(
    archive: &mut Builder<Patient<E>, S>,
    header: &HeaderBlock,
) -> Result<(), FileFault<Reason>>
    ensures { AddsHeader ⟦<Patient<E> as Write>⟧ header.now archive.old result archive.new }
{
    match archive.append_header(header) {
        Ok(()) => Ok(()),
        Err(e) => Err(FileFault::Output(Reason::of(archive.get_ref(), e))),
    }
}

// Appends a header, and the bytes of its file.
fn add_file<D: SystemRead + Drop, E: SystemWrite + Drop, const S: usize>(
    archive: &mut Builder<Patient<E>, S>,
    header: &HeaderBlock,
    body: &mut Patient<D>,
) -> Result<(), FileFault<Reason>>
    ensures { AddsFile ⟦<Patient<D> as Read>⟧ ⟦<Patient<E> as Write>⟧ header.now body.old archive.old result body.new
        archive.new }
{
    match archive.append_header(header) {
        Ok(()) => add_body(archive, body),
        Err(e) => Err(FileFault::Output(Reason::of(archive.get_ref(), e))),
    }
}

// Adds the member with this name.
fn add_named<E: SystemWrite + Drop, const S: usize>(
    rt: &HostRuntime,
    name: &str,
    archive: &mut Builder<Patient<E>, S>,
) -> Result<(), FileFault<Reason>>
    ensures { AddsMember ⟦<Patient<fs::File> as Read>⟧ ⟦<Patient<E> as Write>⟧ name.now archive.old result archive.new }
{
    let found = match fs::symlink_metadata(rt, name) {
        Ok(found) => found,
        Err(e) => return Err(FileFault::File(Reason::System(e))),
    };
    let header = match header_of(rt, name, &found) {
        Ok(header) => header,
        Err(why) => return Err(FileFault::File(why)),
    };
    if !found.is_file() {
        return add_header(archive, &header);
    }
    match open(rt, name) {
        Ok(mut file) => add_file(archive, &header, &mut file),
        Err(e) => Err(FileFault::File(Reason::System(e))),
    }
}

// How far a run is: the files that are done, of all.
#[derive(Drop)]
struct Progress {
    // When it began, if that is to be shown.
    start: Option<Instant>,
    done: usize,
    all: usize,
    is_shown: bool,
}

// Shows how far a run is. The next line overwrites that.
fn show<M: SystemMessages>(messages: &M, done: usize, all: usize)
    ensures { TellsLine M.may_tell_text messages.now (progress_text done all) }
{
    let _ = messages.tell_text(format_args!("tar_make: {done} of {all}\r"));
}

// Returns whether two seconds have gone since the start.
fn is_late(rt: &HostRuntime, start: Option<Instant>) -> bool {
    match start {
        Some(start) => match start.elapsed(rt) {
            Ok(gone) => gone.as_secs() >= 2,
            Err(_) => false,
        },
        None => false,
    }
}

impl Progress {
    // Counts a file that is done, and shows how far the run is, if it is late.
    fn count<M: SystemMessages>(&mut self, rt: &HostRuntime, messages: &M) {
        self.done = self.done.saturating_add(1);
        if is_late(rt, self.start) {
            show(messages, self.done, self.all);
            self.is_shown = true;
        }
    }
}

// A run: where the files are, where messages go, and the archive.
#[derive(Drop)]
struct Making<'a, M, E: SystemWrite + Drop, const S: usize> {
    files: &'a HostRuntime,
    messages: &'a M,
    archive: Builder<Patient<E>, S>,
    progress: Progress,
}

impl<M: SystemMessages, E: SystemWrite + Drop, const S: usize> PerFile for Making<'_, M, E, S> {
    type Reason = Reason;

    // The member is added, or left out.
    ghost may_try = { λ old name reply new. AddsMember ⟦<Patient<fs::File> as Read>⟧ ⟦<Patient<E> as Write>⟧ name old.archive
        reply new.archive };

    // A line with its name goes to standard error, and nothing to the archive.
    ghost may_tell_of = { λ old name why new. (new ≡ old)
        × TellsLine M.may_tell old.messages.now (member_fault name (reason_text why)) };

    fn try_file(&mut self, name: &str) -> Result<(), FileFault<Reason>> {
        let (files, messages) = (self.files, self.messages);
        let tried = add_named(files, name, &mut self.archive);
        self.progress.count(files, messages);
        tried
    }

    fn tell_of(&mut self, name: &str, why: Reason) {
        let _ = self.messages.tell(format_args!("tar_make: {name}: {why}"));
    }
}

// Ends the archive, if the members were tried with this result.
fn end_all<E: SystemWrite + Drop, const S: usize>(
    archive: &mut Builder<Patient<E>, S>,
    tried: Result<bool, Reason>,
) -> Result<bool, Reason>
    ensures { EndsAll ⟦<BufWriter<Patient<E>, S> as Write>⟧ ⟦<Patient<E> as Write>⟧ tried archive.old result archive.new }
{
    match tried {
        Ok(whole) => match archive.finish() {
            Ok(()) => Ok(whole),
            Err(e) => Err(Reason::of(archive.get_ref(), e)),
        },
        Err(why) => Err(why),
    }
}

// Returns when the run began, if progress is to be shown: it was asked for, or standard error is a terminal.
fn begun(rt: &HostRuntime, is_asked: bool) -> Option<Instant> {
    if is_asked || rt.stderr().is_terminal() {
        return Instant::now(rt).ok();
    }
    None
}

// Adds the members with these names, and the end. Returns whether all are what they should be. It stops if standard
// output fails.
fn make(rt: &HostRuntime, is_asked: bool, names: &[String]) -> Result<bool, Reason> {
    let mut making = Making {
        files: rt,
        messages: rt,
        archive: Builder::<_, BUFFER>::new(stdout(rt)),
        progress: Progress {
            start: begun(rt, is_asked),
            done: 0,
            all: names.len(),
            is_shown: false,
        },
    };
    let tried = each_file(&mut making, names);
    if making.progress.is_shown {
        let _ = rt.tell_text("\n");
    }
    end_all(&mut making.archive, tried)
}

// Adds the members with the names of these arguments, the first of which may be `--progress`.
fn make_of(rt: &HostRuntime, words: &[String]) -> Result<bool, Reason> {
    match words.split_first() {
        Some((first, names)) if first.as_str() == "--progress" => make(rt, true, names),
        _ => make(rt, false, words),
    }
}

// Returns the arguments after the program's name.
fn names<R: Env + Alloc<A = Global>>(rt: &R) -> io::Result<Vec<String>> {
    named(rt.alloc(), env::args(rt)?)
}

// Answers the first argument, if it asks for the help or the version.
fn told<R: SystemOutput + SystemMessages>(rt: &R, names: &[String]) -> Option<ExitCode> {
    about(rt, "tar_make", HELP, names.first()?.as_str())
}

// Returns the status of a run. If standard output failed, it tells why.
fn status<R: SystemMessages>(rt: &R, made: Result<bool, Reason>) -> ExitCode
    ensures done { made ≡ Ok true → exit_status result ≡ 0 }
    ensures failed { made ≢ Ok true → exit_status result ≡ 1 }
    ensures told { IfErr made (λ why. TellsLine R.may_tell rt.now (error_line (codes "tar_make") (reason_text why))) }
{
    match made {
        Ok(true) => ExitCode::SUCCESS,
        Ok(false) => ExitCode::FAILURE,
        Err(why) => {
            let failed: Result<(), Reason> = Err(why);
            report(rt, "tar_make", failed)
        }
    }
}

fn main(rt: HostRuntime) -> ExitCode {
    match names(&rt) {
        Ok(names) => match told(&rt, names.as_slice()) {
            Some(told) => told,
            None => status(&rt, make_of(&rt, names.as_slice())),
        },
        Err(e) => report(&rt, "tar_make", Err(e)),
    }
}
