// The printing of a text to an object, through a buffer on the stack.
ghost use Rattle.std.specs.Prelude.{◌≡◌, ◌≤◌, ◌<◌, ◌++◌, ◌^◌, ℕ, List, IsOk, length};
ghost use Rattle.no_std_io2_base.specs.inner.Text.{HasText, PrintsOrRefuses};
ghost use Rattle.no_std_io2_base.specs.inner.Writers.{PrintsByOne, OfObject};

use super::text::Answers;
use super::write::Write;
use crate::error::{Error, ErrorKind, Result};
use crate::impls::copy_bytes;
use crate::internal::failed_to_write;
use std::fmt;
use std::fmt::Display;

// A text, in the front of a buffer. If it would not fit, `is_over` says so, and what is left of it is dropped.
#[derive(Drop)]
struct Page<'a, const N: usize> {
    bytes: &'a mut [u8],
    len: usize,
    is_over: bool,
    ghost within: { (length bytes.now ≡ N) × (len ≤ N) },
}

impl<const N: usize> fmt::Write for Page<'_, N> {
    ghost write_str_gives = { λ s bs t. (text : List ℕ)
        → HasText N s.bytes.now s.len s.is_over text → HasText N t.bytes.now t.len t.is_over (text ++ bs) };

    fn write_str(&mut self, s: &str) -> fmt::Result
        ensures ok { IsOk result → ⟦<Self as fmt::Write>⟧.write_str_gives self.old s.now self.new }

        // An error of the formatter is that of the text.
        ensures never_fails { IsOk result }
    {
        let piece = s.as_bytes();
        if self.is_over || piece.len() > self.bytes.len() - self.len {
            self.is_over = true;
            return Ok(());
        }
        let end = self.len + piece.len();
        copy_bytes(piece, &mut self.bytes[self.len..end]);
        self.len = end;
        Ok(())
    }
}

/// Prints a text of at most `N` bytes to an object: first into a buffer of `N` bytes on the stack, and then by one
/// `write_all`. `N` is from 0 to 2^63 - 1. No contract says what a `write!` does to a `&mut dyn Write`; the contract of
/// this call says what it does. Like `std::io::Write::write_fmt`, but a text that does not fit is not sent at all.
///
/// # Errors
/// Returns `WriteZero` if the text is longer than `N` bytes, and `formatter error` of kind `Other` if the text's own
/// `fmt` fails. The device then got no call. Returns the error of the `write_all` if that fails; some first bytes of
/// the text, possibly none or all, were then accepted.
///
/// ```rust
/// let mut device = Vec::<u8>::new(rt.alloc());
/// let n = 3;
/// print_to_object::<_, _, 64>(&mut device, format_args!("n is {n}\n"))?;
/// assert!(rt; device.as_slice() == b"n is 3\n".as_slice());
/// ```
pub fn print_to_object<D: Display + Drop, E, const N: usize>(
    w: &mut dyn Write,
    text: D,
) -> std::result::Result<(), E>
where
    ErrorKind: Answers<E>,
    requires { N < 2 ^ 63 }
    ensures prints { PrintsOrRefuses N (told w.old) (D.output text) (⟦<ErrorKind as Answers<E>>⟧.seen result) (told w.new) }

    // It made one `write_all`, or no call.
    ensures calls { OfObject w.old (λ a b. PrintsByOne (Write-dyn w.old) N (D.output text) a
        (⟦<ErrorKind as Answers<E>>⟧.seen result) b) w.new }
{
    <ErrorKind as Answers<E>>::answer(print_short::<D, N>(w, text))
}

// Prints a text of at most `N` bytes to an object.
fn print_short<D: Display + Drop, const N: usize>(w: &mut dyn Write, text: D) -> Result<()>
    requires { N < 2 ^ 63 }
    ensures prints { PrintsOrRefuses N (told w.old) (D.output text) result (told w.new) }
    ensures calls { OfObject w.old (λ a b. PrintsByOne (Write-dyn w.old) N (D.output text) a result b) w.new }
{
    let mut room = [0u8; N];
    let mut page = Page::<N> {
        bytes: &mut room[..],
        len: 0,
        is_over: false,
    };
    if fmt::Write::write(&mut page, text).is_err() {
        return Err(Error::other("formatter error"));
    }
    if page.is_over {
        return Err(failed_to_write());
    }
    let Page { bytes, len, .. } = page;
    w.write_all(&bytes[..len])
}
