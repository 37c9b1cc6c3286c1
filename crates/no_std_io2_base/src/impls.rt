//! The traits for slices, vectors and queues, and for types that forward to another stream:
//! references, boxes and trait objects. This module has no public names.
mod boxes;
mod copying;
mod dyn_boxes;
mod dyn_buf_read_boxes;
mod dyn_read_to_end;
mod dyn_references;
mod mut_references;
mod queues;
mod slices;
mod vectors;

pub(crate) use copying::copy_prefix;
pub use copying::{copy_apart, copy_bytes};
pub use slices::append_rest;
pub(crate) use vectors::append;
