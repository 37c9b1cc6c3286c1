// The readers, writers and seekers of the system, as a `Patient` calls them.
ghost use Rattle.std.specs.{Prelude.{ℕ, List, Option, Result}, Io.{ReadsAtMost, WritesAtMost}};
ghost use Rattle.std.specs.{Io.{KnownBytes.{ReadConsumes, WriteAppends, Keeps}, Seek.{SeekMoves}}, declared.io.Error.{Error as StdError}};
ghost use Rattle.std.specs.declared.io.SeekFrom.{SeekFrom as StdPlace};

use std::io;

/// A reader as a [`Patient`](crate::Patient) calls it. Every `std::io::Read` is one. A ghost member says what one call
/// does. So contracts can state that a device was called once, and what became of its result, even if nothing else is
/// known about the device.
pub trait SystemRead {
    // The bytes to come, if they are known.
    ghost known: { Self → Option (List ℕ) };

    // What one call may do, with its result and the buffer afterwards.
    ghost may_read: { Self → Result ℕ StdError → List ℕ → Self → Type 0 };

    /// Reads like `std::io::Read::read`.
    ///
    /// # Errors
    /// Returns the device's error if the device fails.
    fn ask_read(&mut self, buf: &mut [u8]) -> io::Result<usize>
        ensures bound { ReadsAtMost result buf.new }
        ensures bytes { ReadConsumes (known self.old) (known self.new) result buf.new }
        ensures may { may_read self.old result buf.new self.new };
}

impl<D: io::Read> SystemRead for D {
    ghost known = { D.remaining };

    ghost may_read = { λ old answer buf new. ReadConsumes (D.remaining old) (D.remaining new) answer buf };

    fn ask_read(&mut self, buf: &mut [u8]) -> io::Result<usize> {
        self.read(buf)
    }
}

/// A writer as a [`Patient`](crate::Patient) calls it. Every `std::io::Write` is one.
pub trait SystemWrite {
    // What one `write` and one `flush` may do, with their results.
    ghost may_write: { Self → List ℕ → Result ℕ StdError → Self → Type 0 };

    ghost may_flush: { Self → Result (Unit {0}) StdError → Self → Type 0 };

    /// Writes like `std::io::Write::write`.
    ///
    /// # Errors
    /// Returns the device's error if the device fails.
    fn ask_write(&mut self, buf: &[u8]) -> io::Result<usize>
        ensures bound { WritesAtMost result buf.now }
        ensures may { may_write self.old buf.now result self.new };

    /// Flushes like `std::io::Write::flush`.
    ///
    /// # Errors
    /// Returns the device's error if the device fails.
    fn ask_flush(&mut self) -> io::Result<()>
        ensures { may_flush self.old result self.new };
}

impl<D: io::Write> SystemWrite for D {
    ghost may_write = { λ old x answer new. WriteAppends (D.contents old) (D.contents new) answer x };

    ghost may_flush = { λ old answer new. Keeps (D.contents old) (D.contents new) };

    fn ask_write(&mut self, buf: &[u8]) -> io::Result<usize> {
        self.write(buf)
    }

    fn ask_flush(&mut self) -> io::Result<()> {
        self.flush()
    }
}

/// A stream with a position, as a [`Patient`](crate::Patient) calls it. Every `std::io::Seek` is one.
pub trait SystemSeek {
    // What one `seek` may do, with its result.
    ghost may_seek: { Self → StdPlace → Result ℕ StdError → Self → Type 0 };

    /// Seeks like `std::io::Seek::seek`.
    ///
    /// # Errors
    /// Returns the device's error if the device fails.
    fn ask_seek(&mut self, to: io::SeekFrom) -> io::Result<u64>
        ensures { may_seek self.old to result self.new };
}

impl<D: io::Seek> SystemSeek for D {
    ghost may_seek = { λ old to answer new. Keeps (D.stream_bytes old) (D.stream_bytes new)
        × SeekMoves (D.stream_position old) (D.stream_position new) (D.stream_bytes old) to answer };

    fn ask_seek(&mut self, to: io::SeekFrom) -> io::Result<u64> {
        self.seek(to)
    }
}
