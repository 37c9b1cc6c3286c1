// [`Lines`], the iterator over lines of text.
ghost use Rattle.std.specs.Prelude.{◌≡◌, true, false, None, string_bytes};
ghost use Rattle.std.specs.Iterator.{at_most};
ghost use Rattle.no_std_io2_base.specs.Pieces.{newline};
ghost use Rattle.no_std_io2_base.specs.inner.Lines.{line_text, RefusesLine};
ghost use Rattle.no_std_io2_base.specs.inner.Iterators.{lines_reader, lines_is_ended, ends_at, items_left, NextPieceLaw};

use super::buf_read::BufRead;
use super::pieces::trim_line;
use super::read::Read;
use super::strings::text_of;
use crate::error::Result;
use std::alloc::Global;

/// An iterator over a reader's lines, without the newline and a carriage return right before it.
/// Made by [`BufRead::lines`]; follows Rust's `std::io::Lines`.
///
/// A last line without a newline is an item too, and keeps its carriage return. After an error, which is
/// a fault of the reader, `InvalidData` for a line that is not UTF-8, or `OutOfMemory`, it returns `None`
/// for good, unlike Rust's `Lines`; the bytes that were read for that item are lost.
#[derive(Drop)]
pub struct Lines<R> {
    inner: R,
    alloc: Global,
    is_ended: bool,
}

impl<R> Lines<R> {
    pub(super) fn new(inner: R, alloc: Global) -> Lines<R>
        ensures reader { lines_reader result ≡ inner }
        ensures fresh { lines_is_ended result ≡ false }
    {
        Lines {
            inner,
            alloc,
            is_ended: false,
        }
    }
}

// Reads the next line, and drops its newline. `None` means the end.
fn next_line<R: BufRead>(reader: &mut R, alloc: Global) -> Option<Result<String>>
    ensures law { NextPieceLaw ⟦<R as Read>⟧ reader.old string_bytes line_text RefusesLine newline result reader.new }
{
    let mut line = Vec::new(alloc);
    match reader.read_until(b'\n', &mut line) {
        Ok(0) => None,
        Ok(_) => {
            trim_line(&mut line);
            Some(text_of(line))
        }
        Err(e) => Some(Err(e)),
    }
}

impl<R: BufRead> Iterator for Lines<R>
where
    R: Drop,
{
    type Item = Result<String>;

    ghost next_gives = { λ s r t.
        (lines_is_ended s ≡ true → (r ≡ None) × (t ≡ s))
        × (lines_is_ended s ≡ false → (lines_is_ended t ≡ ends_at r)
        × NextPieceLaw ⟦<R as Read>⟧ (lines_reader s) string_bytes line_text RefusesLine newline r (lines_reader t)) };

    ghost remaining = { λ s. at_most (items_left (lines_is_ended s) (R.turns (lines_reader s))) };

    #[tactic(auto, using(crate::proofs::GivenPieces::next_turns))]
    fn next(&mut self) -> Option<Result<String>> {
        if self.is_ended {
            return None;
        }
        let line = next_line(&mut self.inner, self.alloc);
        self.is_ended = matches!(line, Some(Err(_)));
        line
    }
}
