// [`Take`], a reader of at most so many bytes of another one.
ghost use Rattle.std.specs.Prelude.{◌≡◌, ◌≤◌, ◌<◌, ◌+◌, min, length, [], Ok, IsOkAnd, vec_len, vec_capacity};
ghost use types.Logic.{sem};
ghost use Rattle.std.specs.Borrow.{Lends};
ghost use Rattle.no_std_io2_base.specs.contracts.traits.take.Take.{the_row as take-row};
ghost use Rattle.std.specs.Io.BufRead.{Rests};
ghost use Rattle.no_std_io2_base.specs.BufRead.{FillBufLaw, AfterLoan};
ghost use Rattle.no_std_io2_base.specs.inner.Take.{limit_with_inner, limit_left, limit_set, limit_inner, limit_events, limit_held};
ghost use Rattle.no_std_io2_base.specs.inner.Take.{LimitMay};
ghost use Rattle.no_std_io2_base.specs.Takes.{tells};
ghost use Rattle.no_std_io2_base.specs.inner.Read.{least_room};
ghost use Rattle.no_std_io2_base.specs.Read.{ToEndLaw, ReadToEndLaw, ConsumeLaw};

mod seeking;

use super::at_most::read_at_most;
use super::buf_read::BufRead;
use super::read::Read;
use super::stored::Stored;
use crate::error::Result;
use std::alloc::Allocator;

/// A reader of at most `limit` bytes of another reader. Made by [`Read::take`]; follows Rust's `std::io::Take`.
///
/// Each call lowers the limit by the bytes that it gives or drops; errors do not lower it. At limit
/// 0 the stream is at its end. The inner reader is then not called, so its errors do not show.
#[derive(Debug, Drop)]
pub struct Take<T> {
    inner: T,
    // The limit that was set last, above which `limit` never is.
    len: u64,
    limit: u64,
}

impl<T> Take<T> {
    pub(crate) fn new(inner: T, limit: u64) -> Take<T>
        ensures inner { limit_inner result ≡ inner }
        ensures limit { limit_left result ≡ limit }
        ensures len { limit_set result ≡ limit }
    {
        Take {
            inner,
            len: limit,
            limit,
        }
    }

    /// Returns how many more bytes this reader may give; the inner reader may end earlier.
    /// Follows `std::io::Take::limit`.
    ///
    /// ```rust
    /// let mut r = Cursor::new(*b"abcde").take(2);
    /// let mut two = [0u8; 2];
    /// r.read_exact(&mut two)?;
    /// assert!(rt; r.limit() == 0); // the end
    /// r.set_limit(2);
    /// r.read_exact(&mut two)?;
    /// assert!(rt; two == *b"cd");
    /// ```
    pub fn limit(&self) -> u64
        ensures { result ≡ limit_left self.now }
    {
        self.limit
    }

    /// Sets how many more bytes this reader may give from now on, whatever it gave before. Its
    /// positions are counted from here. Follows `std::io::Take::set_limit`.
    pub fn set_limit(&mut self, limit: u64)
        ensures limit { limit_left self.new ≡ limit }
        ensures len { limit_set self.new ≡ limit }
        ensures inner { limit_inner self.new ≡ limit_inner self.old }
    {
        self.limit = limit;
        self.len = limit;
    }

    /// Gets a reference to the inner reader. Follows `std::io::Take::get_ref`.
    ///
    /// ```rust
    /// let mut r = Cursor::new(*b"abcde").take(2);
    /// let mut two = [0u8; 2];
    /// r.read_exact(&mut two)?;
    /// assert!(rt; r.get_ref().position() == 2);
    /// r.get_mut().set_position(0);
    /// assert!(rt; r.limit() == 0); // the limit stays
    /// let inner = r.into_inner();
    /// assert!(rt; inner.position() == 0);
    /// ```
    pub fn get_ref(&self) -> &T
        ensures { result.now ≡ limit_inner self.now }
    {
        &self.inner
    }

    /// Gets a mutable reference to the inner reader. The limit stays. Follows `std::io::Take::get_mut`.
    pub fn get_mut(&mut self) -> &mut T
        ensures value { result.now ≡ limit_inner self.old }
        ensures* writes_back { sem 𝓛 (Lends (take-row T.row) T.row self.entry result (limit_with_inner self.old)) }
    {
        &mut self.inner
    }

    /// Returns the inner reader, at its position. Follows `std::io::Take::into_inner`.
    pub fn into_inner(self) -> T
        ensures { result ≡ limit_inner self }
    {
        self.inner
    }
}

pub(super) fn min_with_limit(n: usize, limit: u64) -> usize
    ensures { result ≡ min n limit }
{
    if (n as u64) < limit {
        n
    } else {
        limit as usize
    }
}

// A `Take` tells no store.
impl<T> Stored for Take<T> {}

impl<T: Read> Read for Take<T> {
    ghost turns = { λ t. T.turns (limit_inner t) };

    ghost events = { limit_events (tells T.Read) };

    ghost may = { LimitMay T.Read };

    ghost held = { limit_held T.held };

    #[inline(always)]
    fn read(&mut self, buf: &mut [u8]) -> Result<usize> {
        if self.limit == 0 {
            return Ok(0);
        }
        let most = min_with_limit(buf.len(), self.limit);
        let n = self.inner.read(&mut buf[..most])?;
        self.limit -= n as u64;
        Ok(n)
    }

    // If the limit is below 32, it makes room only for the bytes up to the limit.
    fn read_to_end<A: Allocator>(&mut self, buf: &mut Vec<u8, A>) -> Result<usize>
        ensures law { ReadToEndLaw ⟦<Self as Read>⟧ self.old buf.old result buf.new self.new }

        // It needs no more room than for the bytes up to the limit.
        ensures small_room { ToEndLaw (λ n. vec_capacity buf.old < vec_len buf.old + min (limit_left self.old) (n + least_room))
            ⟦<Self as Read>⟧ self.old buf.old result buf.new self.new }

        // At limit 0 it returns `Ok(0)`, over every reader.
        ensures at_limit { limit_left self.old ≡ 0 → result ≡ Ok 0 }
    {
        let start = buf.len();
        let read = read_at_most(&mut self.inner, self.limit, buf);
        self.limit -= (buf.len() - start) as u64;
        read
    }
}

impl<T: BufRead> BufRead for Take<T> {
    fn fill_buf(&mut self) -> Result<&[u8]>
        ensures law { FillBufLaw ⟦<Self as Read>⟧ self.old result }
        // At limit 0 it lends nothing.
        ensures at_limit { limit_left self.old ≡ 0 → IsOkAnd result (λ s. s.now ≡ []) }
        ensures* after_borrow { sem 𝓛 (Rests (take-row T.row) self.entry (λ new. AfterLoan ⟦<Self as Read>⟧ self.old result new)) }
    {
        if self.limit == 0 {
            return Ok(b"");
        }
        // What is lent borrows all of `self`.
        let limit = self.limit;
        let available = self.inner.fill_buf()?;
        let most = min_with_limit(available.len(), limit);
        Ok(&available[..most])
    }

    fn consume(&mut self, amount: usize)
        requires { amount ≤ length (limit_held T.held self.old) }
        ensures law { ConsumeLaw ⟦<Self as Read>⟧ self.old amount self.new }
    {
        if self.limit == 0 {
            return;
        }
        self.limit -= amount as u64;
        self.inner.consume(amount);
    }
}
