//! The lower half of `no_std_io2`: errors, the stream traits with their laws, and the streams in
//! memory. Users name only the crate `no_std_io2`, which exports all of this under `io`.
#![tactic(auto)]

pub mod cursor;
pub mod error;
pub mod ghost_bytes;
mod impls;
pub mod internal;
pub mod makers;
pub mod traits;
pub mod util;
