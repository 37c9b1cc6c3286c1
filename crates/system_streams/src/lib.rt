//! The system's readers and writers as streams of `no_std_io2`, and streams of `no_std_io2` as
//! readers and writers of `std::io`.
//!
//! A real device does not tell what it will give or take, and may be interrupted for ever. [`Patient`] makes a reader,
//! writer or seeker of Rust's `std::io` one of this library's, with a number of turns that bounds every loop over it.
//! [`stdin`], [`stdout`], [`open`] and [`create`] return standard input, standard output and files as such streams.
//! [`copy_through`] copies one stream to another with a buffer at each. [`ToStd`] makes a stream of this library one of
//! `std::io`, for crates that need those.
#![tactic(auto)]

mod copy;
mod patient;
mod streams;
mod system;
mod to_std;

pub use copy::copy_through;
pub use patient::{Patient, is_device_fault};
pub use streams::{create, open, stdin, stdout};
pub use system::{SystemRead, SystemSeek, SystemWrite};
pub use to_std::ToStd;
