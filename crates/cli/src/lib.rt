//! What a program with a command line does at its edges, over the streams of `system_streams`.
//!
//! [`arguments`] and [`named`] return what it is called with, and [`about`] answers `--help` and `--version`.
//! [`each_file`] does its work for one file after another, and [`Reason`] is why a call of a stream failed, with the
//! system's error. [`report`] and [`usage`] print why the program failed, and return its status.
#![tactic(auto)]

mod files;
mod messages;
mod program;
mod reason;

pub use files::{FileFault, PerFile, each_file};
pub use messages::{SystemMessages, SystemOutput};
pub use program::{VERSION, about, arguments, named, report, usage};
pub use reason::Reason;
