//! The stream traits, with the laws that every implementation is proved to keep: [`Write`];
//! [`Read`] and [`BufRead`], which lends what it holds; [`Seek`]; and [`Stored`], the parent of the
//! last three, which tells contracts the content of a stream. Methods of these traits return the
//! adaptors [`Chain`], [`Take`], [`Bytes`], [`Split`] and [`Lines`].
pub(crate) mod at_most;
mod buf_read;
mod bytes;
mod chain;
mod lines;
mod object_text;
pub(crate) mod pieces;
mod read;
pub(crate) mod room;
pub(crate) mod seek;
mod split;
mod stored;
mod strings;
mod take;
mod text;
mod write;

pub use at_most::read_at_most;
pub use buf_read::BufRead;
pub use bytes::Bytes;
pub use chain::Chain;
pub use lines::Lines;
pub use object_text::print_to_object;
pub(crate) use pieces::find_piece;
pub use read::Read;
pub(crate) use room::{LEAST_ROOM, reserve_first, reserve_room};
pub use seek::{Seek, SeekFrom};
pub use split::Split;
pub use stored::Stored;
pub use take::Take;
pub use text::Answers;
pub use write::Write;
