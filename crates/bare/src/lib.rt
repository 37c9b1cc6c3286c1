//! What a firmware exports to C: a report, a log through a port, the messages and frames that a port received, and a
//! copy. The header is `bare.h`.
//!
//! No call allocates, panics, keeps a pointer or calls the system. Each returns a number: a status, or how many bytes
//! it moved.
#![tactic(auto)]

mod copying;
mod decimal;
mod frames;
mod kept;
mod log;
mod messages;
mod queue;
mod report;

/// The call did what it is for.
pub const DONE: u32 = 0;

/// The call accepted its bytes, and keeps some of them, since the port is full.
pub const KEPT: u32 = 1;

/// There is no room now.
pub const FULL: u32 = 2;

/// The message has not come whole.
pub const PARTIAL: u32 = 3;

/// The bytes can never be accepted.
pub const REFUSED: u32 = 4;
