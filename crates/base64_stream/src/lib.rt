//! Base64 (RFC 4648) over byte streams, by an engine of the crate `base64`. Nothing is allocated.
//!
//! [`EncoderWriter`] passes on the encoding of what is written to it. It keeps the bytes of a group that is not whole, and
//! its `finish` may be called again after a fault. [`DecoderReader`] gives the bytes whose encoding it reads.
#![tactic(auto)]

mod decoder;
mod encoder;
mod group;
mod text;
mod waiting;

pub use decoder::{DecoderReader, decoded};
pub use encoder::{EncoderWriter, encoded};
