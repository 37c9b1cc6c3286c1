// [`Reason`], why a call of a stream failed.
ghost use Rattle.std.specs.Prelude.{◌≡◌, true, false};
ghost use Rattle.system_streams.specs.Patient.{patient_error};
ghost use Rattle.cli.specs.Reasons.{HasFailed, IsReason, IsReasonOfEither, reason_text};

use no_std_io2::io::Error;
use std::fmt::Display;
use std::io::ErrorKind as SystemKind;
use std::{fmt, io};
use system_streams::{Patient, is_device_fault};

/// Why a call failed, to print it. Rust's std has no such type.
#[derive(Drop)]
pub enum Reason {
    /// The system's error, also in place of a `device fault`.
    System(io::Error),
    /// An error of this library, as the call returned it.
    Own(Error),
}

impl Reason {
    /// Returns the reason for an error of a stream. For a `device fault` it is the last error that the device returned,
    /// unless that was an interruption, which then came later. [`Patient::reason`] makes an error of the system of it.
    pub fn of<D>(stream: &Patient<D>, fault: Error) -> Reason
        ensures { IsReason (patient_error stream.now) fault result }
    {
        match stream.last_error() {
            Some(e) if e.kind() != SystemKind::Interrupted && is_device_fault(&fault) => {
                Reason::System(*e)
            }
            _ => Reason::Own(fault),
        }
    }

    /// Returns the reason for an error of a call that uses two streams, and does not say which of them failed. It is that
    /// of the input, if its device failed, and else that of the output.
    ///
    /// ```rust
    /// Err(e) => Err(Reason::of_either(frames.get_ref(), lines.get_ref(), e)),
    /// ```
    pub fn of_either<D, E>(input: &Patient<D>, output: &Patient<E>, fault: Error) -> Reason
        ensures { IsReasonOfEither (patient_error input.now) (patient_error output.now) fault result }
    {
        if has_failed(input) {
            Reason::of(input, fault)
        } else {
            Reason::of(output, fault)
        }
    }
}

// Returns whether the device of a stream failed, by its last error.
fn has_failed<D>(stream: &Patient<D>) -> bool
    ensures yes { result ≡ true → HasFailed (patient_error stream.now) }
    ensures no { result ≡ false → HasFailed (patient_error stream.now) → ⊥ }
{
    match stream.last_error() {
        Some(e) => e.kind() != SystemKind::Interrupted,
        None => false,
    }
}

/// Prints the error.
impl Display for Reason {
    ghost output = { reason_text };

    fn fmt<W: fmt::Write>(&self, f: &mut fmt::Formatter<W>) -> fmt::Result {
        match self {
            Reason::System(e) => Display::fmt(e, f),
            Reason::Own(e) => Display::fmt(e, f),
        }
    }
}
