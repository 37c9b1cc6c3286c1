//! `logcat FILE` prints the records of a log, one in each line: where it begins, and its payload, with each byte escaped
//! that is not printable ASCII. The last line is the number of bytes that are torn behind them.
//!
//! `logcat FILE COUNT` appends so many records to the log, `record 0` and so on, and prints the number of each as soon as
//! a `sync` has confirmed it.
//!
//! The status is 0 if all was done, 1 after a fault, whose text is printed to standard error, and 2 after wrong
//! arguments.
#![tactic(auto)]

ghost use Rattle.std.specs.Prelude.{◌≡◌, ◌⊎◌, IsErr};
ghost use Rattle.logcat.specs.{Confirming.{Confirmed}, Fits.{LogFits}};

use cli::{Reason, about, named, report, usage};
use no_std_io2::io::{BufWriter, Read, Result, Write};
use record_log::{RecordLog, Records, open};
use std::alloc::Global;
use std::fs::File;
use std::process::ExitCode;
use std::{env, io};
use system_streams::{Patient, stdout};

const USAGE: &str = "usage: logcat FILE [COUNT]";

// What `--help` prints.
const HELP: &str = "\
Usage: logcat FILE [COUNT]
Prints the records of a log, one in each line: where it begins, and its
payload, with each byte escaped that is not printable ASCII. The last line is
the number of bytes that are torn behind them.

With COUNT, it appends so many records to the log, and prints the number of
each as soon as it is confirmed.

  --help     prints this text
  --version  prints the version
";

// The buffer of the log, and of the output.
const BUFFER: usize = 4096;

// How a program ended.
type Ran = std::result::Result<(), Reason>;

// Prints the records of a content.
fn print_records<W: Write>(content: &[u8], out: &mut W) -> Result<()> {
    let mut records = Records::new(content);
    'records: while let Some(record) = records.next() {
        writeln!(out, "{} {}", record.position, record.payload.escape_ascii())?;
    }
    writeln!(out, "{} torn", records.rest().len())?;
    out.flush()
}

// Prints the records of a file.
fn print_file<R: Read, W: Write>(alloc: Global, file: &mut R, out: &mut W) -> Result<()> {
    let mut content = Vec::new(alloc);
    file.read_to_end(&mut content)?;
    print_records(&content, out)
}

// Appends a record, and says so once it is confirmed.
fn append_one<F: Write + Drop, W: Write>(
    alloc: Global,
    log: &mut RecordLog<F, BUFFER>,
    n: u64,
    out: &mut W,
) -> Result<()>
    requires { LogFits F.row }
    // Nothing is printed before the record is confirmed.
    ensures { (IsErr result × (out.new ≡ out.old))
        ⊎ Confirmed F.Write ⟦<BufWriter<F, 4096> as Write>⟧ n log.old log.new }
{
    let payload = format!(in alloc; "record {n}")?;
    log.append(payload.as_bytes())?;
    log.sync()?;
    writeln!(out, "{n}")?;
    out.flush()
}

// Appends so many records.
fn append_all<F: Write + Drop, W: Write>(
    alloc: Global,
    log: &mut RecordLog<F, BUFFER>,
    count: u64,
    out: &mut W,
) -> Result<()>
    requires { LogFits F.row }
{
    'records: for n in 0..count {
        append_one(alloc, log, n, out)?;
    }
    Ok(())
}

// Prints the records of the file with this name.
fn list(rt: &HostRuntime, path: &str) -> io::Result<Ran> {
    let mut file = system_streams::open(rt, path)?;
    let mut out = BufWriter::<_, BUFFER>::new(stdout(rt));
    match print_file(rt.alloc(), &mut file, &mut out) {
        Ok(()) => Ok(Ok(())),
        Err(e) => Ok(Err(Reason::of_either(&file, out.get_ref(), e))),
    }
}

// Appends to the file with this name.
fn append(rt: &HostRuntime, path: &str, count: u64) -> io::Result<Ran> {
    let mut options = File::options();
    options.read(true).write(true).create(true);
    let mut file = Patient::new(options.open(rt, path)?, u64::MAX);
    let mut room = [0u8; BUFFER];
    if let Err(e) = open(&mut file, &mut room) {
        return Ok(Err(Reason::of(&file, e)));
    }
    let mut log = RecordLog::<_, BUFFER>::new(file);
    let mut out = stdout(rt);
    match append_all(rt.alloc(), &mut log, count, &mut out) {
        Ok(()) => Ok(Ok(())),
        Err(e) => Ok(Err(Reason::of_either(log.get_ref(), &out, e))),
    }
}

// Does what the words ask for, and returns the status.
fn run(rt: &HostRuntime, words: &[String]) -> ExitCode {
    let ran = match words {
        [path] => list(rt, path.as_str()),
        [path, count] => match count.as_str().parse::<u64>() {
            Ok(count) => append(rt, path.as_str(), count),
            Err(_) => return usage(rt, USAGE),
        },
        _ => return usage(rt, USAGE),
    };
    match ran {
        Ok(answer) => report(rt, "logcat", answer),
        Err(e) => report(rt, "logcat", Err(e)),
    }
}

// Answers the first word, if it asks for the help or the version.
fn told(rt: &HostRuntime, words: &[String]) -> Option<ExitCode> {
    about(rt, "logcat", HELP, words.first()?.as_str())
}

// Returns the words after the program's name.
fn asked(rt: &HostRuntime) -> io::Result<Vec<String>> {
    named(rt.alloc(), env::args(rt)?)
}

fn main(rt: HostRuntime) -> ExitCode {
    match asked(&rt) {
        Ok(words) => match told(&rt, words.as_slice()) {
            Some(told) => told,
            None => run(&rt, words.as_slice()),
        },
        Err(e) => report(&rt, "logcat", Err(e)),
    }
}
