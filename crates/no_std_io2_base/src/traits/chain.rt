// [`Chain`], two readers, one after the other.
ghost use Rattle.std.specs.Prelude.{◌≡◌, ◌≤◌, ◌+◌, true, false, length, OnOk};
ghost use types.Logic.{sem};
ghost use Rattle.std.specs.Borrow.{LendsBoth};
ghost use Rattle.no_std_io2_base.specs.contracts.traits.chain.Chain.{the_row as chain-row};
ghost use Rattle.no_std_io2_base.specs.inner.Chain.{chain_first, chain_second, chain_is_done, chain_with_readers, chain_events, chain_held};
ghost use Rattle.no_std_io2_base.specs.inner.Chain.{ChainMay};
ghost use Rattle.no_std_io2_base.specs.Takes.{tells};
ghost use Rattle.no_std_io2_base.specs.Read.{ReadToEndLaw, ConsumeLaw};

use super::at_most::rest_to_end;
use super::buf_read::BufRead;
use super::read::Read;
use super::stored::Stored;
use crate::error::Result;
use std::alloc::Allocator;

/// Two readers, one after the other. Made by [`Read::chain`]; follows Rust's `std::io::Chain`.
///
/// The first reader is read to its end: to a read of 0 bytes into a buffer that is not empty, or to
/// an empty slice from `fill_buf`. It is then marked as done for good, and the second
/// reader is used within the same call. A read into an empty buffer never sets the mark.
///
/// ```rust
/// let mut r = Cursor::new(*b"ab").chain(Cursor::new(*b"cd"));
/// let mut content = Vec::<u8>::new(rt.alloc());
/// r.read_to_end(&mut content)?;
/// assert!(rt; content.as_slice() == b"abcd".as_slice());
/// ```
#[derive(Debug, Drop)]
pub struct Chain<T, U> {
    first: T,
    second: U,
    done_first: bool,
}

impl<T, U> Chain<T, U> {
    pub(crate) fn new(first: T, second: U) -> Chain<T, U>
        ensures { result ≡ record { first = first; second = second; done_first = false } }
    {
        Chain {
            first,
            second,
            done_first: false,
        }
    }

    /// Returns the two readers, each at its position. Follows `std::io::Chain::into_inner`.
    ///
    /// ```rust
    /// let mut r = Cursor::new(*b"ab").chain(Cursor::new(*b"cd"));
    /// let mut three = [0u8; 3];
    /// r.read_exact(&mut three)?;
    /// let (first, second) = r.get_ref();
    /// assert!(rt; (first.position(), second.position()) == (2, 1));
    /// let (_, second) = r.into_inner();
    /// assert!(rt; second.position() == 1);
    /// ```
    pub fn into_inner(self) -> (T, U)
        ensures first { result.0 ≡ chain_first self }
        ensures second { result.1 ≡ chain_second self }
    {
        (self.first, self.second)
    }

    /// Gets references to the two readers. Follows `std::io::Chain::get_ref`.
    pub fn get_ref(&self) -> (&T, &U)
        ensures first { result.0.now ≡ chain_first self.now }
        ensures second { result.1.now ≡ chain_second self.now }
    {
        (&self.first, &self.second)
    }

    /// Gets mutable references to the two readers. The mark of a done first reader stays.
    /// Follows `std::io::Chain::get_mut`.
    ///
    /// ```rust
    /// let mut r = Cursor::new(*b"ab").chain(Cursor::new(*b"cd"));
    /// let (_, second) = r.get_mut();
    /// second.set_position(1); // without its `c`
    /// let mut content = Vec::<u8>::new(rt.alloc());
    /// assert!(rt; r.read_to_end(&mut content)? == 3);
    /// ```
    pub fn get_mut(&mut self) -> (&mut T, &mut U)
        ensures first { result.0.now ≡ chain_first self.old }
        ensures second { result.1.now ≡ chain_second self.old }
        ensures* writes_back { sem 𝓛 (LendsBoth (chain-row T.row U.row) T.row U.row self.entry result (chain_with_readers self.old)) }
    {
        (&mut self.first, &mut self.second)
    }
}

// A chain tells no store.
impl<T: Read, U: Read> Stored for Chain<T, U> {}

impl<T: Read, U: Read> Read for Chain<T, U> {
    ghost turns = { λ c. T.turns (chain_first c) + U.turns (chain_second c) };

    ghost events = { chain_events (tells T.Read) (tells U.Read) };

    ghost may = { ChainMay T.Read U.Read };

    ghost held = { chain_held T.held U.held };

    #[inline(always)]
    fn read(&mut self, buf: &mut [u8]) -> Result<usize> {
        if self.done_first {
            return self.second.read(buf);
        }
        match self.first.read(buf)? {
            0 if !buf.is_empty() => {
                self.done_first = true;
                self.second.read(buf)
            }
            n => Ok(n),
        }
    }

    // Each reader appends by its own `read_to_end`; the second first uses the room that the vector
    // still has.
    fn read_to_end<A: Allocator>(&mut self, buf: &mut Vec<u8, A>) -> Result<usize>
        ensures law { ReadToEndLaw ⟦<Self as Read>⟧ self.old buf.old result buf.new self.new }

        // After `Ok` both readers were read to their ends.
        ensures ended { OnOk result (chain_is_done self.new ≡ true) }
    {
        if self.done_first {
            return self.second.read_to_end(buf);
        }
        let start = buf.len();
        self.first.read_to_end(buf)?;
        self.done_first = true;
        rest_to_end(&mut self.second, buf)?;
        Ok(buf.len() - start)
    }
}

impl<T: BufRead, U: BufRead> BufRead for Chain<T, U> {
    fn fill_buf(&mut self) -> Result<&[u8]> {
        if self.done_first {
            return self.second.fill_buf();
        }
        if self.first.fill_buf()?.is_empty() {
            self.done_first = true;
            return self.second.fill_buf();
        }
        self.first.fill_buf()
    }

    fn consume(&mut self, amount: usize)
        requires { amount ≤ length (chain_held T.held U.held self.old) }
        ensures law { ConsumeLaw ⟦<Self as Read>⟧ self.old amount self.new }
    {
        if self.done_first {
            self.second.consume(amount);
        } else {
            self.first.consume(amount);
        }
    }
}
