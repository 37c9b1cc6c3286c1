//! [`Uart`], a port that waits until its hardware is ready.
ghost use Rattle.std.specs.{Prelude.{◌≡◌, ◌∷◌, [], ◌++◌, ℕ, List, Bool, true, false, ◌<◌}, Bool.{OnTrue, OnFalse}};
ghost use Rattle.examples.specs.Serial.{if_taken};

use crate::serial::Port;

/// The registers of a serial chip. Hardware keeps no byte that it sends: an `impl` for it has a field of type
/// `GhostBytes` for `sent`, and its `put` adds the byte.
pub trait Registers {
    // The bytes that were put, in order.
    ghost sent: { Self → List ℕ };

    // Whether it has room for a byte, as far as is known.
    ghost ready: { Self → Bool };

    /// Returns whether the chip has room for a byte.
    fn is_ready(&mut self) -> bool
        ensures ready { ready self.new ≡ result }
        ensures sent { sent self.new ≡ sent self.old };

    /// Puts a byte into the chip.
    fn put(&mut self, byte: u8)
        requires { ready self.old ≡ true }
        ensures { sent self.new ≡ sent self.old ++ byte ∷ [] };
}

/// A port that waits until its chip is ready, but looks only so many times.
#[derive(Drop)]
pub struct Uart<R> {
    /// The registers of the chip.
    pub registers: R,
    /// How many times it looks before it refuses a byte.
    pub looks: u32,
}

// Waits until the chip is ready, and returns whether it is. The loop is a function of its own: what it does to the
// registers is then a clause, and all else of the port is as before.
fn wait<R: Registers>(registers: &mut R, looks: u32) -> bool
    ensures ready { OnTrue result (R.ready registers.new ≡ true) }
    ensures late { OnFalse result (0 < looks → R.ready registers.new ≡ false) }
    ensures sent { R.sent registers.new ≡ R.sent registers.old }
{
    let mut left = looks;
    'looks: while left > 0 {
        if registers.is_ready() {
            return true;
        }
        left -= 1;
    }
    false
}

impl<R: Registers> Port for Uart<R> {
    ghost taken = { λ u. R.sent u.registers };

    fn send(&mut self, byte: u8) -> bool
        ensures taken { R.sent self.new.registers ≡ R.sent self.old.registers ++ if_taken result byte }

        // A byte is refused only if the chip was not ready at the last look.
        ensures refused { OnFalse result (0 < self.old.looks → R.ready self.new.registers ≡ false) }
    {
        if !wait(&mut self.registers, self.looks) {
            return false;
        }
        self.registers.put(byte);
        true
    }
}
