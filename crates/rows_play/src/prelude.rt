//! What the programs use: `use rows_play::prelude::*`.
pub use super::calls::{Call, make_call, make_seek};
pub use super::journal::{Notes, expect, new_journal, show_calls, show_out};
pub use super::line::{Line, Played, Unplayed, cut, cut_last, cut_number, number, unescape};
pub use super::noted::Noted;
pub use super::player::{Player, Stream, Streams, play_files};
pub use super::reads::{make_lend, make_read, make_read_at};
pub use super::recorder::{ReaderName, Recorder};
pub use super::script::parse_list;
