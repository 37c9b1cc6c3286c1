// The parts of which the calls that read pieces are made.
ghost use Rattle.std.specs.Prelude.{◌≡◌, ◌≢◌, ◌≤◌, ◌+◌, true, false, length};
ghost use Rattle.std.specs.List.{AllWithin};
ghost use Rattle.std.specs.Io.BufRead.{ends_with_byte, strip_last};
ghost use Rattle.no_std_io2_base.specs.inner.Pieces.{FindsPiece};
ghost use Rattle.no_std_io2_base.specs.inner.Lines.{line_text};

/// The number of bytes that are compared in one step.
pub const STEP: usize = 16;

/// Returns whether the byte is among the next `N`. It compares all of them, so that one vector
/// instruction does it.
#[inline(always)]
pub fn stands_among<const N: usize>(bytes: &[u8], at: usize, wanted: u8) -> bool
    requires { at + N ≤ length bytes.now }
    ensures { result ≡ false → AllWithin (λ b. b ≢ wanted) bytes.now at (at + N) }
{
    let mut stands = false;
    'bytes: for i in 0..N {
        stands |= bytes[at + i] == wanted;
    }
    stands
}

/// Returns the number of bytes in the first steps that do not have this byte.
#[inline(always)]
pub fn skip_steps(bytes: &[u8], wanted: u8) -> usize
    ensures within { result ≤ length bytes.now }
    ensures lacks { AllWithin (λ b. b ≢ wanted) bytes.now 0 result }
{
    let mut at = 0;
    'steps: while bytes.len() - at >= STEP && !stands_among::<STEP>(bytes, at, wanted) {
        at += STEP;
    }
    at
}

// Returns how many of the lent bytes belong to the next piece, and whether they complete it. They
// do if they end in the delimiter, or if none were lent.
pub(crate) fn find_piece(lent: &[u8], delim: u8) -> (usize, bool)
    ensures { FindsPiece delim lent.now result.0 result.1 }
{
    'bytes: for i in skip_steps(lent, delim)..lent.len() {
        if lent[i] == delim {
            return (i + 1, true);
        }
    }
    (lent.len(), lent.is_empty())
}

// Drops the last byte if it is this one, and returns whether it was.
pub(super) fn drop_last(bytes: &mut Vec<u8>, last: u8) -> bool
    ensures dropped { result ≡ ends_with_byte last bytes.old.items }
    ensures items { bytes.new.items ≡ strip_last last bytes.old.items }
{
    let len = bytes.len();
    if len == 0 {
        return false;
    }
    if bytes[len - 1] != last {
        return false;
    }
    bytes.truncate(len - 1);
    true
}

// Drops the newline that ends the line, and one carriage return right before it.
pub(super) fn trim_line(line: &mut Vec<u8>)
    ensures { line.new.items ≡ line_text line.old.items }
{
    if drop_last(line, b'\n') {
        drop_last(line, b'\r');
    }
}
