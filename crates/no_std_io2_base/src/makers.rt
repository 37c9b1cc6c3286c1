//! [`empty`], [`repeat`] and [`sink`]. A module cannot have these names beside those of their types.
ghost use Rattle.std.specs.Prelude.{◌≡◌, [], replicate};
ghost use Rattle.no_std_io2_base.specs.inner.InMemory.{repeat_left, empty_taken, sink_taken};

use crate::util::{Empty, Repeat, Sink};

/// Returns a reader that is at its end, and that takes every byte as a writer. Follows `std::io::empty`.
///
/// ```rust
/// let mut nothing = empty();
/// assert!(rt; nothing.read(&mut [0u8; 4])? == 0);
/// ```
pub fn empty() -> Empty
    ensures { empty_taken result ≡ [] }
{
    Empty::default()
}

/// Returns a reader that gives `byte` `len` times, and is then at its end. Follows `std::io::repeat`, which has no end:
/// there it is `repeat(byte).take(len)`.
///
/// ```rust
/// let mut file = Vec::<u8>::new(rt.alloc());
/// assert!(rt; copy::<_, _, 64>(&mut repeat(b' ', 100), &mut file)? == 100);
/// assert!(rt; file.len() == 100);
/// ```
pub fn repeat(byte: u8, len: u64) -> Repeat
    ensures { repeat_left result ≡ replicate len byte }
{
    Repeat::new(byte, len)
}

/// Returns a writer that takes every byte and keeps none. Follows `std::io::sink`.
///
/// ```rust
/// let mut from = Cursor::new(*b"abcde");
/// assert!(rt; copy::<_, _, 64>(&mut from, &mut sink())? == 5);
/// ```
pub fn sink() -> Sink
    ensures { sink_taken result ≡ [] }
{
    Sink::new()
}
