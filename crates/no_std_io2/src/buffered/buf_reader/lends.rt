// The `impl` of `BufRead` for `BufReader`.
ghost use Rattle.std.specs.Prelude.{◌≤◌, length};
ghost use Rattle.std.specs.Borrow.{sem};
ghost use Rattle.std.specs.Io.BufRead.{Rests};
ghost use Rattle.no_std_io2_base.specs.BufRead.{FillBufLaw, AfterLoan};
ghost use Rattle.no_std_io2_base.specs.Read.{ConsumeLaw};
ghost use Rattle.no_std_io2.specs.contracts.buffered.buf_reader.BufReader.{the_row as reader-row};
ghost use Rattle.no_std_io2.specs.BufReader.{reader_held};

use super::BufReader;
use no_std_io2_base::error::Result;
use no_std_io2_base::traits::{BufRead, Read};

impl<R: Read, const S: usize> BufRead for BufReader<R, S> {
    fn fill_buf(&mut self) -> Result<&[u8]>
        ensures law { FillBufLaw ⟦<Self as Read>⟧ self.old result }
        ensures* after_borrow { sem 𝓛 (Rests (reader-row R.row S.row) self.entry
            (λ new. AfterLoan ⟦<Self as Read>⟧ self.old result new)) }
    {
        if self.buffer.len() > 0 {
            return Ok(self.buffer.as_slice());
        }
        self.buffer.fill(&mut self.inner)?;
        Ok(self.buffer.as_slice())
    }

    fn consume(&mut self, amount: usize)
        requires { amount ≤ length (reader_held self.old) }
        ensures law { ConsumeLaw ⟦<Self as Read>⟧ self.old amount self.new }
    {
        self.buffer.consume(amount);
    }
}
