// [`FlashFile`], a reader with a store: a content, and a position in it that can be moved.
ghost use Rattle.std.specs.Prelude.{◌≡◌, ◌<◌, ℕ, List, Some, length, drop, slice_index};
ghost use Rattle.no_std_io2.specs.{Events.{events_of}, Takes.{store_at}};

use no_std_io2::io::{Read, Result, Seek, SeekFrom, Stored};

/// A flash memory that is only read. It never fails.
pub trait Flash {
    // Its bytes.
    ghost bytes: { Self → List ℕ };

    /// Returns the number of its bytes.
    fn size(&self) -> u64
        ensures { result ≡ length (bytes self.now) };

    /// Returns the byte at a place.
    fn byte_at(&self, place: u64) -> u8
        requires { place < length (bytes self.now) }
        ensures { result ≡ slice_index (bytes self.now) place };
}

/// A flash memory as a file. Since it tells its store, each read has to give bytes of it, and cannot fail.
#[derive(Drop)]
pub struct FlashFile<F> {
    /// The flash memory.
    pub flash: F,
    /// The position.
    pub place: u64,
}

impl<F: Flash> Stored for FlashFile<F> {
    ghost store = { λ f. store_at (F.bytes f.flash) f.place };
}

impl<F: Flash> Read for FlashFile<F> {
    ghost turns = { λ f. length (drop f.place (F.bytes f.flash)) };

    ghost events = { λ f. Some (events_of (drop f.place (F.bytes f.flash))) };

    fn read(&mut self, buf: &mut [u8]) -> Result<usize> {
        if buf.is_empty() || self.place >= self.flash.size() {
            return Ok(0);
        }
        buf[0] = self.flash.byte_at(self.place);
        self.place += 1;
        Ok(1)
    }
}

impl<F: Flash> Seek for FlashFile<F> {
    fn seek(&mut self, pos: SeekFrom) -> Result<u64> {
        self.place = pos.target(self.flash.size(), self.place)?;
        Ok(self.place)
    }
}
