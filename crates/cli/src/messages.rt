// Standard output and standard error, as a program prints texts to them.
ghost use Rattle.std.specs.{Prelude.{ℕ, List, Option, Result}, declared.io.Error.{Error as StdError}};

use std::fmt::Display;
use std::io;

/// Standard output, as [`about`](crate::about) calls it. Every `Print` is one. A ghost member says what one text may be,
/// so that contracts can state which text was handed to it.
pub trait SystemOutput {
    // What one text may be, if it is known, with the result.
    ghost may_print: { Self → Option (List ℕ) → Result (Unit {0}) StdError → Type 0 };

    /// Prints a text like `print!`.
    ///
    /// # Errors
    /// Returns the system's error if standard output fails.
    fn print_text<D: Display + Drop>(&self, text: D) -> io::Result<()>
        ensures { may_print self.now (D.output text) result };
}

impl<R: Print> SystemOutput for R {
    ghost may_print = { λ _ _ _. Unit {0} };

    fn print_text<D: Display + Drop>(&self, text: D) -> io::Result<()> {
        self.print(text)
    }
}

/// Standard error, as [`report`](crate::report) and [`usage`](crate::usage) call it. Every `Eprint` is one. Its ghost
/// members say what one line and one text may be, as that of [`SystemOutput`] does.
pub trait SystemMessages {
    // What one line may be, if its text is known, with the result.
    ghost may_tell: { Self → Option (List ℕ) → Result (Unit {0}) StdError → Type 0 };

    // The same of a text with no newline behind it.
    ghost may_tell_text: { Self → Option (List ℕ) → Result (Unit {0}) StdError → Type 0 };

    /// Prints a line like `eprintln!`.
    ///
    /// # Errors
    /// Returns the system's error if standard error fails.
    fn tell<D: Display + Drop>(&self, line: D) -> io::Result<()>
        ensures { may_tell self.now (D.output line) result };

    /// Prints a text as it is, like `eprint!`: no newline follows, so that `\r` in front of the next text overwrites it.
    ///
    /// # Errors
    /// Returns the system's error if standard error fails.
    fn tell_text<D: Display + Drop>(&self, text: D) -> io::Result<()>
        ensures { may_tell_text self.now (D.output text) result };
}

impl<R: Eprint> SystemMessages for R {
    ghost may_tell = { λ _ _ _. Unit {0} };

    ghost may_tell_text = { λ _ _ _. Unit {0} };

    fn tell<D: Display + Drop>(&self, line: D) -> io::Result<()> {
        self.eprintln(line)
    }

    fn tell_text<D: Display + Drop>(&self, text: D) -> io::Result<()> {
        self.eprint(text)
    }
}
