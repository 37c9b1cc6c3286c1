// [`Bytes`], the iterator over bytes.
ghost use Rattle.std.specs.Prelude.{◌≡◌, ◌≤◌, ◌<◌, IfErr, IfSome, OnSome};
ghost use Rattle.std.specs.Iterator.{at_most};
ghost use Rattle.no_std_io2_base.specs.Errors.{IsFault};
ghost use Rattle.no_std_io2_base.specs.inner.Iterators.{bytes_reader, NextLaw};

use super::read::Read;
use crate::error::Result;

/// An iterator over a reader's bytes. Made by [`Read::bytes`]; follows Rust's `std::io::Bytes`.
///
/// It yields the reader's bytes and faults in order, and ignores interruptions. It ends when the
/// reader does; a fault does not end it. Each byte costs a read, so put a buffer in front of
/// a slow device.
///
/// ```rust
/// let mut content = Vec::<u8>::new(rt.alloc());
/// 'bytes: for byte in Cursor::new(*b"abc").bytes() {
///     content.push(byte?)?;
/// }
/// assert!(rt; content.as_slice() == b"abc".as_slice());
/// ```
#[derive(Debug, Drop)]
pub struct Bytes<R> {
    inner: R,
}

impl<R> Bytes<R> {
    pub(super) fn new(inner: R) -> Bytes<R>
        ensures { bytes_reader result ≡ inner }
    {
        Bytes { inner }
    }
}

impl<R: Read> Iterator for Bytes<R>
where
    R: Drop,
{
    type Item = Result<u8>;

    ghost next_gives = { λ s r t.
        NextLaw R.Read (bytes_reader s) r (bytes_reader t)
        × IfSome r (λ item. IfErr item IsFault)
        × (R.turns (bytes_reader t) ≤ R.turns (bytes_reader s))
        × OnSome r (R.turns (bytes_reader t) < R.turns (bytes_reader s)) };

    ghost remaining = { λ s. at_most (R.turns (bytes_reader s)) };

    fn next(&mut self) -> Option<Result<u8>> {
        let mut one = [0u8; 1];
        'reads: loop {
            match self.inner.read(&mut one) {
                Ok(0) => return None,
                Ok(_) => return Some(Ok(one[0])),
                Err(e) if e.is_interrupted() => {}
                Err(e) => return Some(Err(e)),
            }
        }
    }
}
