// The impls of `Stored`, `Read` and `BufRead` for `Cursor`.
ghost use Rattle.std.specs.Prelude.{◌≡◌, ◌+◌, ◌≤◌, ◌<◌, ◌^◌, ◌↔◌, min, length, take, Some, IsOk, IsOkAnd, IfOk, IfErr, OnErr};
ghost use Rattle.no_std_io2_base.specs.Cursor.{cursor_position, cursor_inner};
ghost use Rattle.no_std_io2_base.specs.inner.Cursor.{cursor_left};
ghost use Rattle.no_std_io2_base.specs.inner.InMemory.{GivesLeft};
ghost use Rattle.no_std_io2_base.specs.Errors.{IsUnexpectedEnd};
ghost use Rattle.no_std_io2_base.specs.Events.{events_of};
ghost use Rattle.no_std_io2_base.specs.Takes.{store_at};
ghost use Rattle.no_std_io2_base.specs.Read.{ReadLaw, ReadExactLaw, ConsumeLaw};

use super::{AsSlice, Cursor};
use crate::error::{Result, failed_to_fill};
use crate::impls::{append_rest, copy_prefix};
use crate::traits::{BufRead, Read, Stored};
use std::alloc::Allocator;

impl<T: AsSlice<u8>> Stored for Cursor<T> {
    ghost store = { λ c. store_at (T.slice (cursor_inner c)) (cursor_position c) };
}

impl<T: AsSlice<u8>> Cursor<T> {
    // Returns the bytes from the position on.
    fn left(&self) -> &[u8]
        ensures left { result.now ≡ cursor_left T.slice self.now }
        ensures fits { length (T.slice (cursor_inner self.now)) < 2 ^ 64 }
    {
        let all = self.inner.as_slice();
        let start = (all.len() as u64).min(self.pos) as usize;
        &all[start..]
    }
}

impl<T: AsSlice<u8>> Read for Cursor<T> {
    ghost turns = { λ c. length (cursor_left T.slice c) };

    ghost events = { λ c. Some (events_of (cursor_left T.slice c)) };

    ghost may = { GivesLeft (cursor_left T.slice) };

    ghost held = { cursor_left T.slice };

    #[inline(always)]
    fn read(&mut self, buf: &mut [u8]) -> Result<usize>
        ensures law { ReadLaw ⟦<Self as Read>⟧ self.old buf.old result buf.new self.new }

        // It never fails, and gives as many bytes as there are and fit.
        ensures answer { IsOkAnd result (λ n. n ≡ min (length buf.old) (length (cursor_left T.slice self.old))) }
        ensures position { IfOk result (λ n. cursor_position self.new ≡ cursor_position self.old + n) }
        ensures inner { cursor_inner self.new ≡ cursor_inner self.old }
    {
        let n = copy_prefix(self.left(), buf);
        self.pos += n as u64;
        Ok(n)
    }

    fn read_exact(&mut self, buf: &mut [u8]) -> Result<()>
        ensures law { ReadExactLaw ⟦<Self as Read>⟧ self.old buf.old result buf.new self.new }

        // It fails if and only if too few bytes are left, and then changes nothing.
        ensures variant { IsOk result ↔ (length buf.old ≤ length (cursor_left T.slice self.old)) }
        ensures ok { IfOk result (λ _. (buf.new ≡ take (length buf.old) (cursor_left T.slice self.old))
            × (cursor_position self.new ≡ cursor_position self.old + length buf.old)) }
        ensures says { IfErr result IsUnexpectedEnd }
        ensures err { OnErr result ((cursor_position self.new ≡ cursor_position self.old) × (buf.new ≡ buf.old)) }
        ensures inner { cursor_inner self.new ≡ cursor_inner self.old }
    {
        let left = self.left();
        if left.len() < buf.len() {
            return Err(failed_to_fill());
        }
        let n = copy_prefix(left, buf);
        self.pos += n as u64;
        Ok(())
    }

    fn read_to_end<A: Allocator>(&mut self, buf: &mut Vec<u8, A>) -> Result<usize> {
        let start = self.pos;
        let mut rest = self.left();
        let len = rest.len();
        let answer = append_rest(&mut rest, buf);
        self.pos = start + (len - rest.len()) as u64;
        answer?;
        Ok(len)
    }
}

impl<T: AsSlice<u8>> BufRead for Cursor<T> {
    #[tactic(auto, using(crate::proofs::ReadsLemmas::begins_whole))]
    fn fill_buf(&mut self) -> Result<&[u8]> {
        Ok(self.left())
    }

    fn consume(&mut self, amount: usize)
        requires { amount ≤ length (cursor_left T.slice self.old) }
        ensures law { ConsumeLaw ⟦<Self as Read>⟧ self.old amount self.new }

        // It moves the position by `amount`.
        ensures position { cursor_position self.new ≡ cursor_position self.old + amount }
        ensures inner { cursor_inner self.new ≡ cursor_inner self.old }
    {
        // The new position is at most the content's length, which fits.
        let _left = self.left();
        self.pos += amount as u64;
    }
}
