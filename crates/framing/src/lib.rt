//! Frames over byte streams: payloads with their length in front, over any `Write` and any `Read`. Nothing
//! is allocated.
//!
//! A frame is the length of its payload, as a little-endian `u32`, followed by the payload.
//! [`FrameWriter`] sends each frame whole or not at all. [`FrameReader`] reads them back in order, and a fault
//! loses none.
//!
//! ```rust
//! let mut w = FrameWriter::<Vec<u8>, 64>::new(Vec::new(rt.alloc()));
//! w.send(b"ab")?;
//! w.flush()?;
//! assert!(rt; w.get_ref().as_slice() == b"\x02\0\0\0ab".as_slice());
//! ```
#![tactic(auto)]

mod reader;
mod writer;

pub use reader::FrameReader;
pub use reader::parts::{HEADER, told_len};
pub use writer::FrameWriter;
