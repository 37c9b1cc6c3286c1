//! [`RecordLog`], a log of records over any `Write`. Whatever byte of whatever call a power cut comes at, [`open`] then
//! finds the records that a `sync` confirmed, all of them, whole and in order. Nothing is allocated.
//!
//! ```rust
//! let mut log = RecordLog::<Vec<u8>, 64>::new(Vec::new(rt.alloc()));
//! log.append(b"ab")?;
//! log.sync()?;
//! assert!(rt; first_record(log.get_ref().as_slice()) == Some(b"ab".as_slice()));
//! ```
#![tactic(auto)]

mod cuts;
mod disk;
mod log;
mod opening;
mod placed;
mod places;
mod records;
#[cfg(test)]
mod tests;
mod twice;
mod walk;

pub use cuts::{Step, run_log};
pub use disk::Disk;
pub use log::RecordLog;
pub use opening::{Opened, open};
pub use placed::{
    buffers_are_placed, disk_is_placed, line_buffers_are_placed, lines_are_placed,
    slices_are_placed, vectors_are_placed,
};
pub use places::{cursors_tell_places, patch_length, put_apart, put_two, read_back};
pub use records::{HEADER, first_record};
pub use twice::{reopen, run_twice};
pub use walk::{Record, Records};
