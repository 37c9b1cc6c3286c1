// The impls of `Stored` and `Seek` for `BufWriter`.
ghost use Rattle.no_std_io2_base.specs.Seek.{SeekLaw};
ghost use Rattle.no_std_io2.specs.BufWriter.{writer_inner, writer_buffer};
ghost use Rattle.no_std_io2.specs.inner.BufWriter.{store_unheld};
ghost use Rattle.no_std_io2.specs.inner.BufferSeeks.{SeeksSent, WriterMaySeek};

use super::BufWriter;
use no_std_io2_base::error::Result;
use no_std_io2_base::traits::{Seek, SeekFrom, Stored, Write};

/// Tells the inner writer's store if the buffer is empty.
impl<W: Write + Stored + Drop, const S: usize> Stored for BufWriter<W, S> {
    ghost store = { λ w. store_unheld (writer_buffer w) (W.store (writer_inner w)) };
}

/// Sends the held bytes before a seek. The other calls of `Seek` have the trait's bodies, so their first seek sends the
/// held bytes. Follows `std::io::Seek for BufWriter`.
impl<W: Write + Seek + Drop, const S: usize> Seek for BufWriter<W, S> {
    ghost may = { WriterMaySeek W.Write W.Seek };

    /// Sends the held bytes, then seeks the inner writer.
    ///
    /// # Errors
    /// Returns the sending's fault, never `Interrupted`, if the sending fails; the rest is then still
    /// held, and no seek was made. Returns the inner `seek`'s error if that fails; nothing is then held.
    fn seek(&mut self, pos: SeekFrom) -> Result<u64>
        ensures law { SeekLaw ⟦<Self as Seek>⟧ self.old pos result self.new }

        ensures seeks { SeeksSent W.Write W.Seek writer_inner writer_buffer self.old pos result self.new }
    {
        self.sender.send()?;
        self.sender.get_mut().seek(pos)
    }
}
