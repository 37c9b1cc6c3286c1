//! Byte streams that neither lose, repeat nor reorder a byte, for programs with and without an
//! operating system. The names are those of Rust's `std::io`, under [`io`].
//!
//! To put a buffer in front of a device, take [`io::BufWriter`], [`io::LineWriter`] or
//! [`io::BufReader`]. In the examples, `rt` is the `HostRuntime` that `main` and each test take as
//! an argument, and the code is in a function that returns a `Result`.
//!
//! [`io::Cursor`] makes bytes in memory a stream; a slice is a reader, and a vector a writer, without it. [`io::copy`]
//! copies all bytes of a reader to a writer. A device of your own implements [`io::Write`], or [`io::Stored`] and
//! [`io::Read`]. If it does not keep the bytes that it takes, it tells them by [`ghost_bytes::GhostBytes`]. The words
//! of all contracts are under `Rattle.no_std_io2.specs`.
#![tactic(auto)]

pub mod buffered;
pub mod util;

/// Re-exports the standard trait of errors.
pub mod error {
    pub use std::error::Error;
}

/// Re-exports the bytes that exist only for contracts.
pub mod ghost_bytes {
    pub use no_std_io2_base::ghost_bytes::GhostBytes;
}

/// Re-exports all public names, as Rust's `std::io` does: the traits, the buffers, `Cursor`, the
/// adaptors that the traits return, `copy`, and errors.
pub mod io {
    pub use super::buffered::{BufReader, BufWriter, IntoInnerError, LineWriter, Unsent};
    pub use super::util::{
        CopyError, Empty, Repeat, Sink, copy, copy_lent, copy_sided, copy_with, empty,
        flush_with_retries, read_exact_at, read_to_string, repeat, sink, skip, write_with_retries,
    };
    pub use no_std_io2_base::cursor::{AsSlice, Cursor};
    pub use no_std_io2_base::error::{Error, ErrorKind, Result};
    pub use no_std_io2_base::traits::{
        Answers, BufRead, Bytes, Chain, Lines, Read, Seek, SeekFrom, Split, Stored, Take, Write,
        print_to_object, read_at_most,
    };

    /// Re-exports the traits, for `use no_std_io2::io::prelude::*`. Follows `std::io::prelude`.
    pub mod prelude {
        pub use no_std_io2_base::traits::{BufRead, Read, Seek, Write};
    }
}
