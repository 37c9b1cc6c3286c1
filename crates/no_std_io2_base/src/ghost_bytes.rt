//! A list of bytes that exists only for contracts, for a device that does not store the bytes that
//! it takes.
ghost use Rattle.std.specs.Prelude.{◌≡◌, ℕ, List, [], ◌++◌};
ghost use Rattle.std.specs.Borrow.{ftrue};

use std::marker::{Model, PhantomData};

/// A list of bytes that only contracts see. It takes no memory, and its calls do nothing when they run. Rust's std
/// has no such type.
///
/// A device that does not store the bytes that it takes, such as a port, a socket or a sink, uses a
/// `GhostBytes` to tell its `out`.
#[derive(Drop)]
pub struct GhostBytes {
    marker: PhantomData<u8>,
    pub ghost bytes: { List ℕ },
}

impl Model for GhostBytes {
    ghost also_owns = { λ _. ftrue };
}

impl GhostBytes {
    /// Makes an empty list.
    ///
    /// ```rust
    /// let mut taken = GhostBytes::new();
    /// taken.add(b"ab"); // for contracts `taken.bytes` is `ab` now
    /// ```
    pub fn new() -> GhostBytes
        ensures { result.bytes ≡ [] }
    {
        GhostBytes {
            marker: PhantomData,
        }
    }

    /// Appends bytes to the list.
    pub fn add(&mut self, _more: &[u8])
        ensures { self.new.bytes ≡ self.old.bytes ++ _more.now }
    {}
}
