//! Reads and writes numbers of 1 to 16 bytes in either order, and of variable length (LEB128), over every `Read` and every
//! `Write` of `no_std_io2`. Nothing is allocated, and no system is called. Follows the traits `ReadBytesExt` and
//! `WriteBytesExt` of the Rust crate `byteorder`.
#![tactic(auto)]

mod chunk_header;
mod reading;
mod varint;
mod writing;

pub use byteorder::{BE, BigEndian, ByteOrder, LE, LittleEndian, NativeEndian, NetworkEndian};
pub use chunk_header::{read_chunk_header, read_step, write_chunk_header};
pub use reading::ReadBytesExt;
pub use varint::{read_varint, write_varint};
pub use writing::WriteBytesExt;
