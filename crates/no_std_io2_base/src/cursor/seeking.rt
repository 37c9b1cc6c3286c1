// The `impl` of `Seek` for `Cursor`.
ghost use Rattle.std.specs.Prelude.{◌≡◌, length, Ok};
ghost use Rattle.no_std_io2_base.specs.Cursor.{cursor_position, cursor_inner};
ghost use Rattle.no_std_io2_base.specs.Seek.{Seeks, SeekLaw, StreamPositionLaw, RewindLaw, StreamLenLaw};

use super::{AsSlice, Cursor};
use crate::error::Result;
use crate::traits::{Seek, SeekFrom};

impl<T: AsSlice<u8>> Seek for Cursor<T> {
    fn seek(&mut self, pos: SeekFrom) -> Result<u64>
        ensures law { SeekLaw ⟦<Self as Seek>⟧ self.old pos result self.new }

        // It goes to its target, whatever the content is, and the content does not change.
        ensures seeks { Seeks (length (T.slice (cursor_inner self.old))) (cursor_position self.old) pos result (cursor_position self.new) }
        ensures inner { cursor_inner self.new ≡ cursor_inner self.old }
    {
        let at = pos.target(self.inner.as_slice().len() as u64, self.pos)?;
        self.pos = at;
        Ok(at)
    }

    fn stream_position(&mut self) -> Result<u64>
        ensures law { StreamPositionLaw ⟦<Self as Seek>⟧ self.old result self.new }
        ensures same { self.new ≡ self.old }
        ensures position { result ≡ Ok (cursor_position self.old) }
    {
        Ok(self.pos)
    }

    fn rewind(&mut self) -> Result<()>
        ensures law { RewindLaw ⟦<Self as Seek>⟧ self.old result self.new }
        ensures inner { cursor_inner self.new ≡ cursor_inner self.old }
        ensures position { cursor_position self.new ≡ 0 }
        ensures ok { result ≡ Ok tt }
    {
        self.pos = 0;
        Ok(())
    }

    // The length is known, so nothing moves.
    #[tactic(auto, using(crate::proofs::CursorLemmas::len_measured))]
    fn stream_len(&mut self) -> Result<u64>
        ensures law { StreamLenLaw ⟦<Self as Seek>⟧ self.old result self.new }
        ensures same { self.new ≡ self.old }
        ensures len { result ≡ Ok (length (T.slice (cursor_inner self.old))) }
    {
        Ok(self.inner.as_slice().len() as u64)
    }
}
