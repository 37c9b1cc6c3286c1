// What a program says of itself, what it is called with, and how it ends.
ghost use Rattle.std.specs.Prelude.{◌≡◌, ◌≢◌, ℕ, List, [], Ok, None, Some, codes, drop, IfErr, IfNone, IfOk, IfSome, IsErrAnd, IsOk, OnErr};
ghost use Rattle.std.specs.{Prelude.{OnOk}, IoError.{error_kind as std_error_kind}, Process.{exit_status}, Vec.Iter.{into_iter_items}};
ghost use Rattle.no_std_io2.specs.Errors.{IsOutOfMemory};
ghost use Rattle.cli.specs.About.{AsksAbout, EndsPrinted, TellsLine, error_line, version_line};

use crate::messages::{SystemMessages, SystemOutput};
use no_std_io2::io::{Error, ErrorKind};
use std::alloc::Global;
use std::fmt::Display;
use std::io::ErrorKind as SystemKind;
use std::process::ExitCode;
use std::{env, io};

/// The version of this library, and of the programs that come with it.
pub const VERSION: &str = "1.0.0";

/// Answers the word `--help` by this text, and `--version` by the program's name and [`VERSION`], on standard output.
/// Returns the status, which is 1 if standard output failed and else 0, or `None` if the word is another one; nothing
/// is printed then. Rust's std has no such call.
pub fn about<R: SystemOutput + SystemMessages>(
    rt: &R,
    program: &str,
    help: &str,
    word: &str,
) -> Option<ExitCode>
    ensures asked { IfSome result (λ _. AsksAbout word.now) }
    ensures other { IfNone result (AsksAbout word.now → ⊥) }
    // The text was printed, and an error of the printing was told.
    ensures help { word.now ≡ codes "--help" → IfSome result (EndsPrinted R.may_print R.may_tell rt.now program.now help.now) }
    ensures version { word.now ≡ codes "--version" → IfSome result (λ status. (number : List ℕ)
        × EndsPrinted R.may_print R.may_tell rt.now program.now (version_line program.now number) status) }
{
    if word == "--help" {
        Some(report(rt, program, rt.print_text(help)))
    } else if word == "--version" {
        Some(report(rt, program, print_version(rt, program, VERSION)))
    } else {
        None
    }
}

// Prints a program's name and a version.
fn print_version<R: SystemOutput>(rt: &R, program: &str, number: &str) -> io::Result<()>
    ensures { R.may_print rt.now (Some (version_line program.now number.now)) result }
{
    rt.print_text(format_args!("{program} {number}\n"))
}

/// Returns the arguments that `std::env::args` found, or `None` if one of them is not UTF-8. Rust's std has no such call.
///
/// # Errors
/// Returns `OutOfMemory` if the arguments did not fit in memory.
pub fn arguments(found: io::Result<env::Args>) -> no_std_io2::io::Result<Option<env::Args>>
    ensures found { IfOk found (λ words. result ≡ Ok (Some words)) }
    ensures memory { IfErr found (λ e. std_error_kind e ≡ SystemKind.OutOfMemory → IsErrAnd result IsOutOfMemory) }
    ensures text { IfErr found (λ e. std_error_kind e ≢ SystemKind.OutOfMemory → result ≡ Ok None) }
{
    match found {
        Ok(words) => Ok(Some(words)),
        Err(e) if e.kind() == SystemKind::OutOfMemory => {
            Err(Error::from(ErrorKind::OutOfMemory))
        }
        Err(_) => Ok(None),
    }
}

/// Returns the arguments after the program's name. Rust's std has no such call.
///
/// # Errors
/// Returns `OutOfMemory` if they do not fit in memory once more.
pub fn named(alloc: Global, mut words: env::Args) -> io::Result<Vec<String>>
    ensures names { IfOk result (λ names. names.items ≡ drop 1 (into_iter_items words)) }
    ensures memory { IfErr result (λ e. std_error_kind e ≡ SystemKind.OutOfMemory) }
    // It does not fail if there are none.
    ensures none { drop 1 (into_iter_items words) ≡ [] → IsOk result }
{
    let _program = words.next();
    let mut names = Vec::new(alloc);
    'words: while let Some(word) = words.next() {
        names.push(word)?;
    }
    Ok(names)
}

/// Returns the status of a program's run: 0 after `Ok`, and 1 after `Err`. Prints an error to standard error, after the
/// program's name; if that fails, nothing more is done. Rust's std has no such call.
///
/// ```rust
/// Ok(Some(Command::Print)) => report(&rt, "frame_lines", run(&rt)),
/// ```
pub fn report<R: SystemMessages, E: Display + Drop>(
    rt: &R,
    program: &str,
    answer: Result<(), E>,
) -> ExitCode
    ensures done { OnOk answer (exit_status result ≡ 0) }
    ensures failed { OnErr answer (exit_status result ≡ 1) }
    ensures told { IfErr answer (λ e. TellsLine R.may_tell rt.now (error_line program.now (E.output e))) }
{
    match answer {
        Ok(()) => ExitCode::SUCCESS,
        Err(fault) => {
            let _ = rt.tell(format_args!("{program}: {fault}"));
            ExitCode::FAILURE
        }
    }
}

/// Prints to standard error how a program is called, and returns the status of a wrong call, which is 2. If the printing
/// fails, nothing more is done. Rust's std has no such call.
///
/// ```rust
/// Ok(None) => usage(&rt, USAGE),
/// ```
pub fn usage<R: SystemMessages>(rt: &R, text: &str) -> ExitCode
    ensures status { exit_status result ≡ 2 }
    ensures told { TellsLine R.may_tell rt.now (Some text.now) }
{
    let _ = rt.tell(text);
    ExitCode::from(2)
}
