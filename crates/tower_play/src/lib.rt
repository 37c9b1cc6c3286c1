//! Plays a script of writes on a tower of buffered writers over a device that fails as the script says.
//!
//! [`play`] reads the script from any reader, and writes its results to any writer: a line for each reply, and then the
//! bytes that are out and those that are held.
#![tactic(auto)]

mod memory;
mod playing;
mod report;
mod script;

pub use playing::{Fault, Shape, play};
