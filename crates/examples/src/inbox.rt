// [`Inbox`], a reader with a budget of turns.
ghost use Rattle.std.specs.{Prelude.{◌≡◌, ◌<◌, ◌++◌, ◌∷◌, ℕ, List, drop, length}, Option.{option_to_list}};
ghost use Rattle.examples.specs.Inbox.{InboxMay};

use no_std_io2::io::{Error, ErrorKind, Read, Result, Stored};

/// The receiving half of a port. That of real hardware has a field of type `GhostBytes` for `given`, and its `receive`
/// adds each byte that it returns.
pub trait Source {
    // The bytes that it gave, in order.
    ghost given: { Self → List ℕ };

    /// Returns the next byte, or `None` if there is none yet.
    fn receive(&mut self) -> Option<u8>
        ensures { given self.new ≡ given self.old ++ option_to_list result };
}

// Puts a byte at the front of `buf`.
fn put_first(buf: &mut [u8], byte: u8)
    requires { 0 < length buf.old }
    ensures { buf.new ≡ byte ∷ drop 1 buf.old }
{
    buf[0] = byte;
}

/// A reader with a budget of turns. It is not known what its source will give, so each result spends a turn. At
/// the last turn the result is the error that no turns are left.
#[derive(Drop)]
pub struct Inbox<S> {
    /// The source of the bytes.
    pub source: S,
    /// The number of turns that are left.
    pub turns: u64,
}

impl<S> Stored for Inbox<S> {}

impl<S: Source> Read for Inbox<S> {
    ghost turns = { λ r. r.turns };

    // A read gives what the source gave.
    ghost may = { InboxMay S.given };

    fn read(&mut self, buf: &mut [u8]) -> Result<usize> {
        if buf.is_empty() || self.turns == 0 {
            return Ok(0);
        }
        self.turns -= 1;
        if self.turns == 0 {
            return Err(Error::new(ErrorKind::TimedOut, "no turns left"));
        }
        let Some(byte) = self.source.receive() else {
            return Err(Error::from(ErrorKind::WouldBlock));
        };
        put_first(buf, byte);
        Ok(1)
    }
}
