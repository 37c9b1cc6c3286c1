//! Runs table-driven tests. Each row of a table is a call on the stream under test, its expected
//! result and the expected state afterwards.
//!
//! A file has tables. A table begins with a line `stream NAME`, or `stream NAME, NAME`, and has groups of rows. A group
//! begins with a line `new RESULTS`, which makes a new stream over a device that has these results. A row is `CALL |
//! RESULT | the state afterwards`, in columns. Empty lines, and those that begin with `#`, are ignored.
//!
//! ```text
//! stream writer BufWriter 8
//! # what a device does not take stays held
//! new take 2, fail BrokenPipe gone
//! write abcdef | 6 | - | abcdef | -
//! flush | !BrokenPipe: gone | ab | cdef | write abcdef = 2, write cdef = !BrokenPipe: gone
//! ```
//!
//! The results of a device are `all` (it takes all, as it does once no result is left), `take 2` (at most 2 bytes),
//! `give abc` (a read gives these bytes), `end` (a read gives none), `at 5` (the position that a seek returns), and
//! `fail KIND` or `fail KIND TEXT`. Bytes that cannot be printed are `\n`, `\\` and `\x0d`, no bytes are a dash, and
//! `\*300a` are 300 bytes from `a` on: the letters from `a` to `w` over and over, or dots. An error is `!KIND`, or
//! `!KIND: TEXT`.
//!
//! A program has [`player::Streams`] for its streams, and its `main` calls [`player::play_files`].
#![tactic(auto)]

pub mod calls;
pub mod journal;
pub mod line;
pub mod noted;
pub mod player;
pub mod prelude;
pub mod reads;
pub mod recorder;
pub mod script;
