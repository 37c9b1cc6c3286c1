//! The printing of a value into an array.
ghost use Rattle.std.specs.Prelude.{◌<◌, ◌^◌, ◌++◌, ℕ, List};
ghost use Rattle.line_log.specs.Text.{IsPrinted, PrintsText, SaysLong};

use crate::printed::Printed;
use no_std_io2::io::{Error, ErrorKind};
use std::fmt;
use std::fmt::Display;

impl<const S: usize> fmt::Write for Printed<S> {
    // The bytes are appended to what was printed before, unless something did not fit.
    ghost write_str_gives = { λ s bs t. (text : List ℕ) → IsPrinted text s → IsPrinted (text ++ bs) t };

    fn write_str(&mut self, s: &str) -> fmt::Result {
        if self.fits {
            self.fits = self.append(s.as_bytes());
        }
        Ok(())
    }
}

/// Makes the error of a line that is not shorter than the buffer.
pub(crate) fn too_long() -> Error
    ensures { SaysLong result }
{
    let text = "a line is longer than the buffer";
    Error::new(ErrorKind::InvalidInput, text)
}

/// Prints a value into an array.
pub(crate) fn print_text<D: Display + Drop, const S: usize>(text: D) -> Printed<S>
    requires { S < 2 ^ 63 }
    ensures { PrintsText (D.output text) result }
{
    let mut printed = Printed::<S>::new();
    let formatted = fmt::Write::write(&mut printed, text);
    printed.failed = formatted.is_err();
    printed
}
