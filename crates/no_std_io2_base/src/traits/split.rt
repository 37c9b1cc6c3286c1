// [`Split`], the iterator over pieces.
ghost use Rattle.std.specs.Prelude.{◌≡◌, true, false, None, vec_items};
ghost use Rattle.std.specs.Iterator.{at_most};
ghost use Rattle.std.specs.Io.BufRead.{strip_last};
ghost use Rattle.no_std_io2_base.specs.inner.Iterators.{split_reader, split_delim, split_is_ended, ends_at, items_left, NextPieceLaw};

use super::buf_read::BufRead;
use super::pieces::drop_last;
use super::read::Read;
use crate::error::Result;
use std::alloc::Global;

/// An iterator over the pieces of a reader's bytes, each up to a delimiter and without it. Made by
/// [`BufRead::split`]; follows Rust's `std::io::Split`.
///
/// A last piece without a delimiter is an item too, unless it is empty. After an error, which is a
/// fault of the reader or `OutOfMemory`, it returns `None` for good, unlike Rust's `Split`; the
/// bytes that were read for that item are lost.
#[derive(Drop)]
pub struct Split<R> {
    inner: R,
    alloc: Global,
    delim: u8,
    is_ended: bool,
}

impl<R> Split<R> {
    pub(super) fn new(inner: R, alloc: Global, delim: u8) -> Split<R>
        ensures reader { split_reader result ≡ inner }
        ensures delim { split_delim result ≡ delim }
        ensures fresh { split_is_ended result ≡ false }
    {
        Split {
            inner,
            alloc,
            delim,
            is_ended: false,
        }
    }
}

// Reads the next piece, and drops its delimiter. `None` means the end.
fn next_piece<R: BufRead>(reader: &mut R, alloc: Global, delim: u8) -> Option<Result<Vec<u8>>>
    ensures law { NextPieceLaw ⟦<R as Read>⟧ reader.old vec_items (strip_last delim) (λ _ _. ⊥) delim result reader.new }
{
    let mut piece = Vec::new(alloc);
    match reader.read_until(delim, &mut piece) {
        Ok(0) => None,
        Ok(_) => {
            drop_last(&mut piece, delim);
            Some(Ok(piece))
        }
        Err(e) => Some(Err(e)),
    }
}

impl<R: BufRead> Iterator for Split<R>
where
    R: Drop,
{
    type Item = Result<Vec<u8>>;

    ghost next_gives = { λ s r t.
        (split_is_ended s ≡ true → (r ≡ None) × (t ≡ s))
        × (split_is_ended s ≡ false → (split_is_ended t ≡ ends_at r)
        × NextPieceLaw ⟦<R as Read>⟧ (split_reader s) vec_items (strip_last (split_delim s)) (λ _ _. ⊥) (split_delim s) r (split_reader t))
        × (split_delim t ≡ split_delim s) };

    ghost remaining = { λ s. at_most (items_left (split_is_ended s) (R.turns (split_reader s))) };

    #[tactic(auto, using(crate::proofs::GivenPieces::next_turns))]
    fn next(&mut self) -> Option<Result<Vec<u8>>> {
        if self.is_ended {
            return None;
        }
        let piece = next_piece(&mut self.inner, self.alloc, self.delim);
        self.is_ended = matches!(piece, Some(Err(_)));
        piece
    }
}
