// [`run_split`] and [`run_lines`], which take all items of a `split` and of a `lines`.
ghost use Rattle.std.specs.Prelude.{◌≡◌, ◌+◌, ◌<◌, ◌++◌, map, false, OnOk, OnErr, IfErr, IfSome, vec_items, vec_len, vec_capacity};
ghost use Rattle.std.specs.{Prelude.{string_bytes}, Iterator.{IsFinite}, Io.BufRead.{strip_last}};
ghost use Rattle.no_std_io2.specs.{Errors.{IsFault, IsOutOfMemory}, Takes.{to_come, tells}, Pieces.{newline}};
ghost use Rattle.no_std_io2.specs.inner.Lines.{line_text, RefusesLine};
ghost use Rattle.no_std_io2.specs.inner.Iterators.{split_reader, split_delim, split_is_ended, lines_reader, lines_is_ended};
ghost use Rattle.io_bench.specs.{PieceRuns.{GathersPieces, RunsNexts}, Appended.{appended}};

use no_std_io2::io::{BufRead, Lines, Read, Result, Split};

// Makes room for one more item.
fn reserve_one<T>(items: &mut Vec<T>) -> Result<()>
    ensures items { items.new.items ≡ items.old.items }
    ensures room { OnOk result (vec_len items.new < vec_capacity items.new) }
    ensures refused { IfErr result IsOutOfMemory }
    // It does not fail if there is room.
    ensures full { OnErr result (vec_capacity items.new < vec_len items.new + 1) }
{
    items.reserve(1)?;
    Ok(())
}

// Takes all items of an iterator, up to an error, and appends them.
fn run_items<T: Drop, I: Iterator<Item = Result<T>>>(iter: &mut I, items: &mut Vec<T>) -> Result<()>
    requires can { I.can_next iter.old }
    requires finite { IsFinite (I.remaining iter.old) }
    ensures appends { items.new.items ≡ items.old.items ++ appended items.old.items items.new.items }
    ensures calls { RunsNexts I.next_gives (vec_capacity items.new < vec_len items.new + 1) iter.old
        (appended items.old.items items.new.items) result iter.new }
{
    'items: loop {
        reserve_one(items)?;
        match iter.next() {
            None => return Ok(()),
            Some(Ok(item)) => items.push_reserved(item),
            Some(Err(e)) => return Err(e),
        }
    }
}

/// Takes all items of a `split`, and appends them to `items`. It makes no call after the `next` that returned `None`
/// or an error.
///
/// The items are the pieces of all bytes that were to come, in order and without their delimiter,
/// for every reader and whatever portions the bytes arrive in.
///
/// # Errors
/// Returns the reader's first fault; the items are then the pieces that a delimiter ended before it.
/// Returns `OutOfMemory` if an allocation failed; the items are then the first pieces. Either `items`
/// was full, or the next piece had no room for a byte.
pub fn run_split<R: BufRead + Drop>(split: &mut Split<R>, items: &mut Vec<Vec<u8>>) -> Result<()>
    ensures told { split_is_ended split.old ≡ false → IfSome (to_come (tells ⟦<R as Read>⟧ (split_reader split.old)))
        (λ E. GathersPieces (strip_last (split_delim split.old)) (λ _ _. ⊥) (vec_capacity items.new < vec_len items.new + 1)
        (split_delim split.old) E result (map vec_items (appended items.old.items items.new.items))) }
    ensures appends { items.new.items ≡ items.old.items ++ appended items.old.items items.new.items }
    ensures calls { RunsNexts ⟦<Split<R> as Iterator>⟧.next_gives (vec_capacity items.new < vec_len items.new + 1) split.old
        (appended items.old.items items.new.items) result split.new }
    ensures never_interrupted { IfErr result IsFault }
{
    run_items(split, items)
}

/// Takes all items of a `lines`, and appends them to `items`. It makes no call after the `next` that returned `None`
/// or an error.
///
/// The items are the lines of all bytes that were to come, in order and without their line ends, for
/// every reader and whatever portions the bytes arrive in.
///
/// # Errors
/// Returns the reader's first fault; the items are then the lines that a newline ended before it.
/// Returns `InvalidData` if a line is not UTF-8; the items are the lines before it. Returns
/// `OutOfMemory` if an allocation failed; the items are the first lines. Either `items` was full, or
/// the next line had no room for a byte.
pub fn run_lines<R: BufRead + Drop>(lines: &mut Lines<R>, items: &mut Vec<String>) -> Result<()>
    ensures told { lines_is_ended lines.old ≡ false → IfSome (to_come (tells ⟦<R as Read>⟧ (lines_reader lines.old)))
        (λ E. GathersPieces line_text RefusesLine (vec_capacity items.new < vec_len items.new + 1) newline
        E result (map string_bytes (appended items.old.items items.new.items))) }
    ensures appends { items.new.items ≡ items.old.items ++ appended items.old.items items.new.items }
    ensures calls { RunsNexts ⟦<Lines<R> as Iterator>⟧.next_gives (vec_capacity items.new < vec_len items.new + 1) lines.old
        (appended items.old.items items.new.items) result lines.new }
    ensures never_interrupted { IfErr result IsFault }
{
    run_items(lines, items)
}
