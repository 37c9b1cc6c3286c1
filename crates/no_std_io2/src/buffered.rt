//! Buffers in front of readers and writers: [`BufReader`], [`BufWriter`], and [`LineWriter`], which
//! passes each line on as soon as it is complete. The buffer of `S` bytes is in the value itself, so
//! nothing is allocated. [`IntoInnerError`] is the error of `into_inner` of a writer.
mod buf_reader;
mod buf_writer;
mod buffer;
mod into_inner_error;
mod line_writer;
mod sender;
mod unsent;

pub use buf_reader::BufReader;
pub use buf_writer::BufWriter;
pub use into_inner_error::IntoInnerError;
pub use line_writer::LineWriter;
pub use unsent::Unsent;
