//! [`each_file`], a program's way through the files that it is called with.
ghost use Rattle.std.specs.Prelude.{ℕ, List, Result, string_bytes};
ghost use Rattle.cli.specs.{declared.files.FileFault.{FileFault as Fault}, Files.{TriesFiles}};

/// Why a program did not do its work for a file.
#[derive(Drop)]
pub enum FileFault<E> {
    /// The file failed. The next one may follow.
    File(E),
    /// The program's output failed. No other file may follow.
    Output(E),
}

/// A program's work for one file after another, as [`each_file`] does it. Rust's std has no such trait.
pub trait PerFile {
    /// Why a file or the output failed.
    type Reason;

    // What one try may do, by the file's name, with its result.
    ghost may_try: { Self → List ℕ → Result (Unit {0}) (Fault Self.Reason) → Self → Type 0 };

    // What telling of a file that failed may do.
    ghost may_tell_of: { Self → List ℕ → Self.Reason → Self → Type 0 };

    /// Does the work for the file with this name.
    ///
    /// # Errors
    /// Returns `File` if the file failed, and `Output` if the program's output failed.
    fn try_file(&mut self, name: &str) -> Result<(), FileFault<Self::Reason>>
        ensures { may_try self.old name.now result self.new };

    /// Tells why the file with this name failed.
    fn tell_of(&mut self, name: &str, why: Self::Reason)
        ensures { may_tell_of self.old name.now why self.new };
}

/// Does a program's work for the files with these names, in order. It tells of each file that failed, and goes on with
/// the next. Returns whether none failed. Rust's std has no such call.
///
/// # Errors
/// Returns the reason if the output failed. For the files behind that one nothing was done.
///
/// ```rust
/// let mut run = Run {
///     rt,
///     out: stdout(rt),
///     room: [0; ROOM],
/// };
/// each_file(&mut run, names)
/// ```
pub fn each_file<P: PerFile>(work: &mut P, names: &[String]) -> Result<bool, P::Reason>
    ensures { TriesFiles (λ a name. P.may_try a (string_bytes name)) (λ a name. P.may_tell_of a (string_bytes name)) names.now
        work.old result work.new }
{
    let mut whole = true;
    'names: for name in names {
        match work.try_file(name.as_str()) {
            Ok(()) => {}
            Err(FileFault::File(why)) => {
                work.tell_of(name.as_str(), why);
                whole = false;
            }
            Err(FileFault::Output(why)) => return Err(why),
        }
    }
    Ok(whole)
}
