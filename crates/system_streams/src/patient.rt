// [`Patient`], a reader or writer of the system with a number of turns that bounds every loop
// over it.
ghost use Rattle.std.specs.Prelude.{◌≡◌, ◌≢◌, true, false, ◌+◌, ◌<◌, ◌⊎◌, [], None, Some, length, option_copied, IfSome};
ghost use Rattle.std.specs.IoError.{error_kind as std_error_kind};
ghost use Rattle.no_std_io2.specs.{Read.{ReadLaw}, Errors.{error_kind}};
ghost use Rattle.system_streams.specs.{ToStd.{std_kind}, Turns.{IsOutOfTurns, IsPlainInterruption, IsDeviceFault, Becomes}};

use crate::system::{SystemRead, SystemWrite};
use crate::to_std::std_error;
use no_std_io2::ghost_bytes::GhostBytes;
use no_std_io2::io::{Error, ErrorKind, Read, Result, Stored, Write};
use std::io;
use std::io::ErrorKind as SystemKind;

mod seeking;

/// Makes a reader, writer or seeker of Rust's `std::io` a stream of this library.
///
/// Nothing is known about what such a device will do, so a number of turns bounds how often it is
/// called again. A reader spends one turn for each result except the end, and a writer spends one
/// for each interruption. In contracts, the bytes that a writer's device reported as taken are out.
///
/// # Errors
/// A call returns `Interrupted` if the device was interrupted; `TimedOut`, `no turns left`, at a
/// reader's last turn, and if a writer without turns is interrupted; and `Other`, `device fault`,
/// for any other fault of the device. What the device took or gave before does not change.
/// [`last_error`](Patient::last_error) has the device's own error.
///
/// ```rust
/// let mut p = Patient::new(&b"abcdef"[..], 3);
/// let mut buf = [0u8; 4];
/// assert!(rt; p.read(&mut buf)? == 4);
/// assert!(rt; p.read(&mut buf)? == 2);
/// assert!(rt; p.read(&mut buf).is_err()); // no turns left
/// assert!(rt; p.read(&mut buf)? == 0);
/// ```
#[derive(Drop)]
pub struct Patient<D> {
    device: D,
    turns: u64,
    last_error: Option<io::Error>,
    taken: GhostBytes,
}

impl<D> Patient<D> {
    ghost use Rattle.std.specs.Borrow.{Lends, sem};
    ghost use Rattle.system_streams.specs.Patient.{patient_device, patient_turns, patient_taken, patient_error};
    ghost use Rattle.system_streams.specs.contracts.patient.Patient.{the_row as patient-row};

    /// Wraps a device, with this number of turns, which may be 0. At its last turn a reader returns
    /// the error that no turns are left.
    pub fn new(device: D, turns: u64) -> Patient<D>
        ensures device { patient_device result ≡ device }
        ensures turns { patient_turns result ≡ turns }
        ensures taken { patient_taken result ≡ [] }
        ensures error { patient_error result ≡ None }
    {
        Patient {
            device,
            turns,
            last_error: None,
            taken: GhostBytes::new(),
        }
    }

    /// Gets a reference to the device, such as to ask for the size of a file.
    pub fn get_ref(&self) -> &D
        ensures { result.now ≡ patient_device self.now }
    {
        &self.device
    }

    /// Gets a mutable reference to the device, such as to lock, sync or cut a file. The turns, the bytes that were taken
    /// and the last error stay.
    ///
    /// ```rust
    /// let mut p = Patient::new(&b"abcdef"[..], 3);
    /// p.read(&mut [0u8; 4])?;
    /// assert!(rt; *p.get_ref() == b"ef".as_slice());
    /// *p.get_mut() = &b"xyz"[..];
    /// assert!(rt; p.read(&mut [0u8; 4])? == 3);
    /// ```
    pub fn get_mut(&mut self) -> &mut D
        ensures value { result.now ≡ patient_device self.old }
        ensures* writes_back { sem 𝓛 (Lends (patient-row D.row) D.row self.entry result (λ d. record self.old { device = d })) }
    {
        &mut self.device
    }

    /// Returns the device as it is now.
    ///
    /// ```rust
    /// let mut p = Patient::new(&b"abcdef"[..], 3);
    /// p.read(&mut [0u8; 4])?;
    /// assert!(rt; p.into_inner() == b"ef".as_slice());
    /// ```
    pub fn into_inner(self) -> D
        ensures { result ≡ patient_device self }
    {
        self.device
    }

    /// Gets the last error that the device returned, with the system's code and text. It is the reason of the last
    /// `device fault`.
    pub fn last_error(&self) -> Option<&io::Error>
        ensures { option_copied result ≡ patient_error self.now }
    {
        self.last_error.as_ref()
    }

    /// Returns the reason for an error of this stream, to print it. For a `device fault` it is the last error that the
    /// device returned, unless that was an interruption, which then came later. For any other error, such as one of a
    /// formatter, it is an error with the kind of `fault` and at most the first 80 bytes of its text.
    ///
    /// ```rust
    /// let mut folder = open(rt, ".")?;
    /// let fault = folder.read(&mut [0u8; 4]).err().ok_or("no fault")?; // `device fault`
    /// assert!(rt; folder.reason(fault).kind() == io::ErrorKind::IsADirectory);
    /// ```
    pub fn reason(&self, fault: Error) -> io::Error
        ensures system { IsDeviceFault fault
            → IfSome (patient_error self.now) (λ e. std_error_kind e ≢ SystemKind.Interrupted → result ≡ e) }
        ensures other { (IsDeviceFault fault → ⊥) → std_error_kind result ≡ std_kind (error_kind fault) }
        ensures none { patient_error self.now ≡ None → std_error_kind result ≡ std_kind (error_kind fault) }
        ensures later { IfSome (patient_error self.now) (λ e. std_error_kind e ≡ SystemKind.Interrupted
            → std_error_kind result ≡ std_kind (error_kind fault)) }
    {
        match self.last_error {
            Some(e) if e.kind() != SystemKind::Interrupted && is_device_fault(&fault) => e,
            _ => std_error(fault),
        }
    }

    // The error that a writer returns in place of its device's error. An interruption spends
    // a turn.
    fn refuse(&mut self, reason: io::Error) -> Error
        ensures taken { patient_taken self.new ≡ patient_taken self.old }
        ensures device { patient_device self.new ≡ patient_device self.old }
        ensures error { patient_error self.new ≡ Some reason }
        ensures becomes { Becomes (std_error_kind reason) result (patient_turns self.old) (patient_turns self.new) }
        ensures answer { (IsPlainInterruption result × (patient_turns self.new + 1 ≡ patient_turns self.old))
            ⊎ (IsOutOfTurns result × (patient_turns self.old ≡ 0) × (patient_turns self.new ≡ 0))
            ⊎ (IsDeviceFault result × (patient_turns self.new ≡ patient_turns self.old)) }
    {
        self.last_error = Some(reason);
        if reason.kind() != SystemKind::Interrupted {
            return device_fault();
        }
        if self.turns == 0 {
            return no_turns_left();
        }
        self.turns -= 1;
        interruption()
    }
}

// The text of a device's fault.
const DEVICE_FAULT: &str = "device fault";

fn no_turns_left() -> Error
    ensures { IsOutOfTurns result }
{
    Error::new(ErrorKind::TimedOut, "no turns left")
}

fn interruption() -> Error
    ensures { IsPlainInterruption result }
{
    Error::from(ErrorKind::Interrupted)
}

fn device_fault() -> Error
    ensures { IsDeviceFault result }
{
    Error::new(ErrorKind::Other, DEVICE_FAULT)
}

/// Returns whether an error is a `device fault`, for which [`Patient::last_error`] has the device's own error. Rust's std
/// has no such call.
pub fn is_device_fault(fault: &Error) -> bool
    ensures yes { result ≡ true → IsDeviceFault fault.now }
    ensures no { result ≡ false → IsDeviceFault fault.now → ⊥ }
{
    match fault.get_ref() {
        Some(text) => fault.kind() == ErrorKind::Other && **text == *DEVICE_FAULT,
        None => false,
    }
}

// The error that a reader or a seeker returns in place of its device's error.
fn device_error(kind: SystemKind) -> Error
    ensures fault { (kind ≡ SystemKind.Interrupted → ⊥) → IsDeviceFault result }
    ensures interrupted { kind ≡ SystemKind.Interrupted → IsPlainInterruption result }
{
    if kind == SystemKind::Interrupted {
        interruption()
    } else {
        device_fault()
    }
}

/// Tells no store.
impl<D> Stored for Patient<D> {}

/// Tells no events, because those of its device are not known.
impl<D: SystemRead> Read for Patient<D> {
    ghost use Rattle.system_streams.specs.Patient.{patient_turns, AsksDevice, PatientReads};

    ghost turns = { patient_turns };

    ghost may = { PatientReads ⟦<D as SystemRead>⟧ };

    fn read(&mut self, buf: &mut [u8]) -> Result<usize>
        ensures law { ReadLaw ⟦<Self as Read>⟧ self.old buf.old result buf.new self.new }

        // If the buffer is not empty and more than one turn is left, it calls the device once.
        ensures asked { 0 < length buf.old → 1 < patient_turns self.old
            → AsksDevice ⟦<D as SystemRead>⟧ self.old result buf.new self.new }
    {
        if buf.is_empty() || self.turns == 0 {
            return Ok(0);
        }
        if self.turns == 1 {
            self.turns = 0;
            return Err(no_turns_left());
        }
        match self.device.ask_read(buf) {
            Ok(0) => Ok(0),
            Ok(n) => {
                self.turns -= 1;
                Ok(n)
            }
            Err(e) => {
                self.turns -= 1;
                self.last_error = Some(e);
                Err(device_error(e.kind()))
            }
        }
    }
}

/// Tells that the bytes that its device reported as taken are out, and that nothing is held; it tells no mishaps. Each
/// call makes the same call of the device, once. `write_all` and `write_rest` have the trait's bodies.
impl<D: SystemWrite> Write for Patient<D> {
    ghost use Rattle.system_streams.specs.Patient.{patient_told, PatientMay};

    ghost told = { patient_told };

    ghost may = { PatientMay ⟦<D as SystemWrite>⟧ };

    fn write(&mut self, buf: &[u8]) -> Result<usize> {
        match self.device.ask_write(buf) {
            Ok(n) => {
                self.taken.add(&buf[..n]);
                Ok(n)
            }
            Err(e) => Err(self.refuse(e)),
        }
    }

    fn flush(&mut self) -> Result<()> {
        match self.device.ask_flush() {
            Ok(()) => Ok(()),
            Err(e) => Err(self.refuse(e)),
        }
    }
}
