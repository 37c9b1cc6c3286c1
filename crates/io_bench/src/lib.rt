//! Devices that fail on command, and functions that make whole lists of calls, for tests and proofs.
//!
//! [`run_writes`] makes the calls of a list on any writer, and keeps each reply. Its contract says
//! what this does to the writer, for every type of writer. [`Sink`], [`Faulty`] and [`Tally`] are
//! writers to put below: one that takes all, one that fails as its acts say, and one that counts.
//! [`joined`] returns the bytes that a run accepted, by its replies. [`run_closed`] makes a list of calls
//! through one `BufWriter`, closes it, and bounds the inner writes.
//!
//! [`run_reads`] makes a list of reads through one `BufReader`, with a bound on the inner reads.
//! [`Feed`] is a reader to put below, which gives the events of a list; `Tally` counts reads too. [`kind_of_name`] is for
//! scripts of devices.
#![tactic(auto)]

mod accepted;
mod asks;
mod closed;
mod faulty;
mod feed;
mod kinds;
mod pieces;
mod runs;
mod tally;

pub use accepted::joined;
pub use asks::{Ask, ReadTotals, run_reads};
pub use closed::run_closed;
pub use faulty::{Act, Faulty};
pub use feed::{Event, Feed};
pub use kinds::kind_of_name;
pub use no_std_io2::ghost_bytes;
pub use no_std_io2::io::Sink;
pub use pieces::{run_lines, run_split};
pub use runs::{Op, Reply, run_writes};
pub use tally::Tally;
