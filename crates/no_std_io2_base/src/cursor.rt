//! [`Cursor`], a stream over bytes in memory with a position. Its content is a type that can be
//! borrowed as a slice, [`AsSlice`].
ghost use Rattle.std.specs.Prelude.{◌≡◌, List, IsOk, IfOk, IfErr};
ghost use types.Logic.{sem};
ghost use Rattle.std.specs.Borrow.{Lends};
ghost use Rattle.std.specs.Box.{boxed_slice_items};
ghost use Rattle.no_std_io2_base.specs.contracts.cursor.Cursor.{the_row as cursor-row};
ghost use Rattle.no_std_io2_base.specs.Errors.{IsOutOfMemory};
ghost use Rattle.no_std_io2_base.specs.Cursor.{cursor_position, cursor_inner};
ghost use Rattle.no_std_io2_base.specs.inner.Cursor.{cursor_with_inner};

mod reading;
mod seeking;
mod slices;
mod vectors;

use crate::error::Result;
use std::alloc::Allocator;
use std::boxed::BoxedSlice;
use std::ops::DerefSlice;

/// A type that can be borrowed as one slice. The content of a [`Cursor`] has to be one;
/// `std::io::Cursor` has the bound `AsRef<[u8]>` there. The same value always gives
/// the same elements.
///
/// ```rust
/// assert!(rt; AsSlice::as_slice(b"abc") == b"abc".as_slice());
/// ```
pub trait AsSlice<T> {
    // The elements of the slice.
    ghost slice: { Self → List T };

    /// Lends the elements, in order. Follows `AsRef::as_ref`.
    fn as_slice(&self) -> &[T]
        ensures { result.now ≡ slice self.now };
}

impl AsSlice<u8> for &[u8] {
    ghost slice = { λ s. s.now };

    fn as_slice(&self) -> &[u8] {
        self
    }
}

impl AsSlice<u8> for &mut [u8] {
    ghost slice = { λ s. s.now };

    fn as_slice(&self) -> &[u8] {
        self
    }
}

impl<const N: usize> AsSlice<u8> for [u8; N] {
    ghost slice = { λ s. s };

    fn as_slice(&self) -> &[u8] {
        self
    }
}

impl<const N: usize> AsSlice<u8> for &[u8; N] {
    ghost slice = { λ s. s.now };

    fn as_slice(&self) -> &[u8] {
        *self
    }
}

impl AsSlice<u8> for &str {
    ghost slice = { λ s. s.now };

    fn as_slice(&self) -> &[u8] {
        self.as_bytes()
    }
}

impl<A: Allocator> AsSlice<u8> for Vec<u8, A> {
    ghost slice = { λ v. v.items };

    fn as_slice(&self) -> &[u8] {
        Vec::as_slice(self)
    }
}

impl<A: Allocator> AsSlice<u8> for BoxedSlice<u8, A> {
    ghost slice = { boxed_slice_items };

    fn as_slice(&self) -> &[u8] {
        DerefSlice::deref(self)
    }
}

impl<A: Allocator> AsSlice<u8> for &Vec<u8, A> {
    ghost slice = { λ v. v.now.items };

    fn as_slice(&self) -> &[u8] {
        Vec::as_slice(self)
    }
}

impl<A: Allocator> AsSlice<u8> for &mut Vec<u8, A> {
    ghost slice = { λ v. v.now.items };

    fn as_slice(&self) -> &[u8] {
        Vec::as_slice(self)
    }
}

/// A content in memory, and a position in it. The position is from 0 to 2^64 - 1, and may be past
/// the end. A cursor can be read and sought; over a vector, an array, a mutable or a boxed slice
/// it can also be written. Follows `std::io::Cursor`.
///
/// ```rust
/// let mut c = Cursor::new(Vec::<u8>::new(rt.alloc()));
/// c.write_all(b"abc")?;
/// assert!(rt; c.position() == 3);
/// c.set_position(1);
/// let mut rest = [0u8; 2];
/// c.read_exact(&mut rest)?;
/// assert!(rt; rest == *b"bc");
/// ```
#[derive(Debug, PartialEq, Eq, Default, Drop)]
pub struct Cursor<T> {
    inner: T,
    pos: u64,
}

impl<T> Cursor<T> {
    /// Makes a cursor on this content, at position 0. Follows `std::io::Cursor::new`.
    pub fn new(inner: T) -> Cursor<T>
        ensures inner { cursor_inner result ≡ inner }
        ensures position { cursor_position result ≡ 0 }
    {
        Cursor { inner, pos: 0 }
    }

    /// Returns the content. Follows `std::io::Cursor::into_inner`.
    ///
    /// ```rust
    /// let mut c = Cursor::new(*b"abc");
    /// c.get_mut()[0] = b'x';
    /// assert!(rt; *c.get_ref() == *b"xbc");
    /// assert!(rt; c.into_inner() == *b"xbc");
    /// ```
    pub fn into_inner(self) -> T
        ensures { result ≡ cursor_inner self }
    {
        self.inner
    }

    /// Gets a reference to the content. Follows `std::io::Cursor::get_ref`.
    pub fn get_ref(&self) -> &T
        ensures { result.now ≡ cursor_inner self.now }
    {
        &self.inner
    }

    /// Gets a mutable reference to the content. The position stays. Follows `std::io::Cursor::get_mut`.
    pub fn get_mut(&mut self) -> &mut T
        ensures value { result.now ≡ cursor_inner self.old }
        ensures* writes_back { sem 𝓛 (Lends (cursor-row T.row) T.row self.entry result (cursor_with_inner self.old)) }
    {
        &mut self.inner
    }

    /// Returns the position, in bytes from the start. Follows `std::io::Cursor::position`.
    ///
    /// ```rust
    /// let mut c = Cursor::new(*b"abc");
    /// c.set_position(7); // past the end too
    /// assert!(rt; c.position() == 7);
    /// ```
    pub fn position(&self) -> u64
        ensures { result ≡ cursor_position self.now }
    {
        self.pos
    }

    /// Moves to this position, which may be past the end. Follows `std::io::Cursor::set_position`.
    pub fn set_position(&mut self, pos: u64)
        ensures position { cursor_position self.new ≡ pos }
        ensures inner { cursor_inner self.new ≡ cursor_inner self.old }
    {
        self.pos = pos;
    }

    /// Makes a cursor on a clone of the content, at the same position. Rust derives `Clone` in its
    /// place, which cannot report a failed allocation.
    ///
    /// # Errors
    /// Returns `OutOfMemory` if the content could not be cloned.
    ///
    /// ```rust
    /// let mut c = Cursor::new(*b"abc");
    /// let start = c.clone()?;
    /// c.set_position(3);
    /// assert!(rt; start.position() == 0);
    /// ```
    pub fn clone(&self) -> Result<Cursor<T>>
    where
        T: Clone,
        ensures position { IfOk result (λ c. cursor_position c ≡ cursor_position self.now) }
        ensures inner { IfOk result (λ c. T.is_clone (cursor_inner self.now) (cursor_inner c)) }
        // If every clone of the content equals it, the new cursor equals this one.
        ensures equal { ((x : T) → T.is_clone (cursor_inner self.now) x → x ≡ cursor_inner self.now)
            → IfOk result (λ c. c ≡ self.now) }
        ensures err { IfErr result IsOutOfMemory }
        ensures succeeds { T.is_infallible (cursor_inner self.now) → IsOk result }
    {
        let inner = self.inner.clone()?;
        Ok(Cursor {
            inner,
            pos: self.pos,
        })
    }
}
