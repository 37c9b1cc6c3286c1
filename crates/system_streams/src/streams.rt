// Standard input, standard output and files, as streams with more turns than a program can use up.
ghost use Rattle.std.specs.Prelude.{IfOk};
ghost use Rattle.system_streams.specs.Patient.{IsFresh};

use crate::patient::Patient;
use std::fs::File;
use std::io;
use std::io::Input;
use std::path::AsPath;
use std::rt::Files;

/// Returns standard input. It has no buffer: put a `BufReader` in front for small reads. Follows `std::io::stdin`.
pub fn stdin<R: Input>(rt: &R) -> Patient<R::Reader>
    ensures { IsFresh result }
{
    Patient::new(rt.reader(), u64::MAX)
}

/// Returns standard output. It has no buffer: put a `BufWriter` or a `LineWriter` in front for small writes.
/// Follows `std::io::stdout`.
pub fn stdout<R: Print>(rt: &R) -> Patient<io::Printer<'_, R>>
    ensures { IsFresh result }
{
    Patient::new(io::writer(rt), u64::MAX)
}

/// Opens a file to read it. Follows `std::fs::File::open`.
///
/// # Errors
/// Returns the system's error if the file cannot be opened. No contract says when that is so, since the contract of
/// `std`'s `open` does not.
///
/// ```rust
/// let mut program = open(rt, "/proc/self/exe")?;
/// let mut magic = [0u8; 4];
/// read_exact_at(&mut program, SeekFrom::Start(0), &mut magic)?;
/// assert!(rt; magic == *b"\x7fELF");
/// ```
pub fn open<R: Files, P: AsPath>(rt: &R, path: P) -> io::Result<Patient<R::File>>
    ensures { IfOk result IsFresh }
{
    Ok(Patient::new(File::open(rt, path)?, u64::MAX))
}

/// Makes an empty file to write to. If there is a file of this name, its content is lost.
/// Follows `std::fs::File::create`.
///
/// # Errors
/// Returns the system's error if the file cannot be made. No contract says when that is so, since the contract of
/// `std`'s `create` does not.
pub fn create<R: Files, P: AsPath>(rt: &R, path: P) -> io::Result<Patient<R::File>>
    ensures { IfOk result IsFresh }
{
    Ok(Patient::new(File::create(rt, path)?, u64::MAX))
}
