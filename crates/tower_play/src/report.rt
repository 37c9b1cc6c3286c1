// The text that `play` prints: a line for each reply, and then the bytes that are out and those
// that are held.
ghost use Rattle.std.specs.Prelude.{◌≡◌, ◌∷◌, [], ◌++◌, ℕ, codes, List, Some, IfSome, IfNone, OnOk, IfOk};
ghost use Rattle.tower_play.specs.{Script.{escaped, escaped_byte}, Report.{reply_line, printed_report}};

use crate::memory::{Refused, push, push_shown};
use io_bench::Reply;
use std::alloc::Allocator;
use std::fmt::Display;

/// Appends the line of a reply.
///
/// # Errors
/// Returns an error if an allocation failed.
pub fn push_reply<A: Allocator>(text: &mut Vec<u8, A>, reply: &Reply) -> Result<(), Refused>
    ensures ok { OnOk result (text.new.items ≡ text.old.items ++ reply_line reply.now) }
{
    match reply {
        Reply::Took(count) => push_line(text, b"took=", count),
        Reply::Done => push(text, b"done\n"),
        Reply::Failed(error) => push_line(text, b"failed=", error),
    }
}

// Appends a line: a name, and the printed text of a value.
fn push_line<A: Allocator, D: Display>(
    text: &mut Vec<u8, A>,
    name: &[u8],
    value: &D,
) -> Result<(), Refused>
    ensures ok { (shown : List ℕ) → D.output value.now ≡ Some shown
        → OnOk result (text.new.items ≡ text.old.items ++ (name.now ++ (shown ++ codes "\n"))) }
{
    push(text, name)?;
    push_shown(text, value)?;
    push(text, b"\n")?;
    Ok(())
}

/// Appends these bytes, with a newline as `\n` and a backslash as `\\`.
///
/// # Errors
/// Returns an error if an allocation failed.
pub fn push_escaped<A: Allocator>(text: &mut Vec<u8, A>, bytes: &[u8]) -> Result<(), Refused>
    ensures ok { OnOk result (text.new.items ≡ text.old.items ++ escaped bytes.now) }
{
    let mut start = 0;
    'bytes: for i in 0..bytes.len() {
        match escape_of(bytes[i]) {
            Some(shown) => {
                push(text, &bytes[start..i])?;
                push(text, shown)?;
                start = i + 1;
            }
            None => {}
        }
    }
    push(text, &bytes[start..])?;
    Ok(())
}

// Returns the escape of a byte that is not printed as it is.
fn escape_of(byte: u8) -> Option<&'static [u8]>
    ensures some { IfSome result (λ shown. shown.now ≡ escaped_byte byte) }
    ensures none { IfNone result (escaped_byte byte ≡ byte ∷ []) }
{
    match byte {
        b'\n' => Some(b"\\n"),
        b'\\' => Some(b"\\\\"),
        _ => None,
    }
}

/// Returns the text of the results: the line of each reply, and then the bytes that are out and
/// those that are held, the inner level's first.
///
/// # Errors
/// Returns an error if an allocation failed.
pub fn report_of<A: Allocator>(
    alloc: A,
    replies: &[Reply],
    out: &[u8],
    inner: &[u8],
    outer: &[u8],
) -> Result<Vec<u8, A>, Refused>
    ensures ok { IfOk result (λ text. text.items ≡ printed_report replies.now out.now (inner.now ++ outer.now)) }
{
    let mut text = Vec::new(alloc);
    'replies: for reply in replies {
        push_reply(&mut text, reply)?;
    }
    push(&mut text, b"out=")?;
    push_escaped(&mut text, out)?;
    push(&mut text, b"\nheld=")?;
    push_escaped(&mut text, inner)?;
    push_escaped(&mut text, outer)?;
    push(&mut text, b"\n")?;
    Ok(text)
}
