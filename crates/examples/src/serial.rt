// [`Serial`], a device that does not store the bytes that it takes: a serial line.
ghost use Rattle.std.specs.Prelude.{◌≡◌, ◌++◌, ℕ, List};
ghost use Rattle.no_std_io2.specs.Moves.{told_out};
ghost use Rattle.examples.specs.Serial.{if_taken, SerialMay};

use no_std_io2::io::{Error, ErrorKind, Result, Write};

/// The sending half of a port. The port of real hardware keeps no byte: it has a field of type `GhostBytes` for
/// `taken`, and its `send` adds each byte that the hardware took.
pub trait Port {
    // The bytes that it took, in order.
    ghost taken: { Self → List ℕ };

    /// Sends a byte, and returns whether the port took it.
    fn send(&mut self, byte: u8) -> bool
        ensures { taken self.new ≡ taken self.old ++ if_taken result byte };
}

/// A device that does not store the bytes that it takes.
#[derive(Drop)]
pub struct Serial<P> {
    /// The port to which the bytes go.
    pub port: P,
}

impl<P: Port> Write for Serial<P> {
    // The bytes that the port took are out.
    ghost told = { λ s. told_out (P.taken s.port) };

    // A write sends its first byte, and a refused byte is the error `WouldBlock`.
    ghost may = { SerialMay P.taken };

    fn write(&mut self, buf: &[u8]) -> Result<usize> {
        let Some(byte) = buf.first() else {
            return Ok(0);
        };
        if !self.port.send(*byte) {
            return Err(Error::from(ErrorKind::WouldBlock));
        }
        Ok(1)
    }

    fn flush(&mut self) -> Result<()> {
        Ok(())
    }
}
