// The `impl` of `Read` for `BufReader`.
ghost use Rattle.std.specs.Prelude.{◌≡◌, ◌<◌, ◌-◌, ◌++◌, ℕ, List, length, take, nat_le};
ghost use Rattle.no_std_io2_base.specs.Takes.{tells};
ghost use Rattle.no_std_io2_base.specs.Read.{ReadExactLaw, ReadFullLaw, ReadToEndLaw};
ghost use Rattle.no_std_io2_base.specs.Calls.{GaveAll};
ghost use Rattle.no_std_io2_base.specs.inner.Read.{without_number};
ghost use Rattle.no_std_io2.specs.BufReader.{reader_held};
ghost use Rattle.no_std_io2.specs.inner.BufReader.{reader_events, reader_turns, LeavesExact, ReadsThrough, full_ended, ReaderMay};

use super::BufReader;
use no_std_io2_base::error::Result;
use no_std_io2_base::internal::{failed_to_fill, rest_to_end};
use no_std_io2_base::traits::Read;
use std::alloc::Allocator;

impl<R: Read, const S: usize> BufReader<R, S> {
    // An exact read of more than the held bytes.
    #[cold]
    #[inline(never)]
    fn read_exact_cold(&mut self, buf: &mut [u8]) -> Result<()>
        requires { length (reader_held self.old) < length buf.old }
        ensures law { ReadExactLaw ⟦<BufReader<R, S> as Read>⟧ self.old buf.old result buf.new self.new }
        ensures leaves { LeavesExact R.Read self.old (length buf.old) result buf.new self.new }
    {
        let mut filled = 0;
        self.read_full(buf, &mut filled)?;
        if filled < buf.len() {
            return Err(failed_to_fill());
        }
        Ok(())
    }

    // Calls `read_exact_cold`, for the reason at `Sender::write_out_of_line`.
    #[inline(always)]
    fn read_exact_out_of_line(&mut self, buf: &mut [u8]) -> Result<()>
        requires { length (reader_held self.old) < length buf.old }
        ensures law { ReadExactLaw ⟦<BufReader<R, S> as Read>⟧ self.old buf.old result buf.new self.new }
        ensures leaves { LeavesExact R.Read self.old (length buf.old) result buf.new self.new }
    {
        self.read_exact_cold(buf)
    }
}

impl<R: Read, const S: usize> Read for BufReader<R, S> {
    ghost turns = { reader_turns R.turns };

    ghost events = { reader_events (tells R.Read) };

    ghost may = { ReaderMay R.Read };

    ghost held = { reader_held };

    #[inline(always)]
    fn read(&mut self, buf: &mut [u8]) -> Result<usize> {
        if self.buffer.len() > 0 {
            return Ok(self.buffer.give(buf));
        }
        if buf.len() >= S {
            self.buffer.clear();
            return self.inner.read(buf);
        }
        self.buffer.fill(&mut self.inner)?;
        Ok(self.buffer.give(buf))
    }

    // If the bytes end too early, all of them are taken.
    #[inline(always)]
    fn read_exact(&mut self, buf: &mut [u8]) -> Result<()>
        ensures law { ReadExactLaw ⟦<Self as Read>⟧ self.old buf.old result buf.new self.new }

        // Which inner reads it made, what is held and what lies behind.
        ensures leaves { LeavesExact R.Read self.old (length buf.old) result buf.new self.new }
    {
        if buf.len() > self.buffer.len() {
            return self.read_exact_out_of_line(buf);
        }
        self.buffer.give_whole(buf);
        Ok(())
    }

    #[inline(always)]
    fn read_full(&mut self, buf: &mut [u8], filled: &mut usize) -> Result<()>
        ensures law { ReadFullLaw ⟦<Self as Read>⟧ self.old buf.old filled.old result buf.new filled.new self.new }

        // Which inner reads it made for the bytes that it gave, and what is in the buffer then.
        ensures through { (x : List ℕ) × (take filled.new buf.new ≡ take filled.old buf.old ++ x)
            × ReadsThrough R.Read self.old (length buf.old - filled.old) x
            (full_ended result (nat_le (length buf.new) filled.new)) self.new }
    {
        'reads: while *filled < buf.len() {
            match self.read(&mut buf[*filled..]) {
                Ok(0) => return Ok(()),
                Ok(n) => *filled += n,
                Err(e) if e.is_interrupted() => {}
                Err(e) => return Err(e),
            }
        }
        Ok(())
    }

    // Appends the held bytes, and then those that the inner reader's `read_to_end` appends. If nothing is held, this is
    // just that inner call.
    fn read_to_end<A: Allocator>(&mut self, buf: &mut Vec<u8, A>) -> Result<usize>
        ensures law { ReadToEndLaw ⟦<Self as Read>⟧ self.old buf.old result buf.new self.new }

        // It is one call of this type, as its `may` says, and not the reads of the trait's body.
        ensures own { (x : List ℕ) × (buf.new.items ≡ buf.old.items ++ x)
            × ReaderMay R.Read self.old (GaveAll x (without_number result)) self.new }
    {
        if self.buffer().is_empty() {
            self.buffer.clear();
            return self.inner.read_to_end(buf);
        }
        let start = buf.len();
        self.buffer.append_to(buf)?;
        rest_to_end(&mut self.inner, buf)?;
        Ok(buf.len() - start)
    }
}
