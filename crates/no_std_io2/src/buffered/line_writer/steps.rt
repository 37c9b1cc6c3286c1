// The steps of the calls of a `LineWriter`.
ghost use Rattle.std.specs.Prelude.{◌≡◌, ◌≢◌, ◌+◌, ◌-◌, ◌<◌, ◌≤◌, true, length, slice_range};
ghost use Rattle.std.specs.List.{AllWithin};
ghost use Rattle.std.specs.Io.BufRead.{ends_with_byte};
ghost use Rattle.no_std_io2_base.specs.inner.Lines.{IsLineState, lines_len};
ghost use Rattle.no_std_io2_base.specs.Pieces.{newline};
ghost use Rattle.no_std_io2.specs.inner.LineWriter.{held_tail, SendLineCalls, SendLinesCalls, LineWriteCalls, LineWriteAllCalls};
ghost use Rattle.no_std_io2.specs.inner.BufWriter.{sender_inner, sender_buffer, TakesStep};

use crate::buffered::buffer::SMALL;
use crate::buffered::sender::Sender;
use memchr::memrchr;
use no_std_io2_base::error::Result;
use no_std_io2_base::internal::{STEP, skip_steps, stands_among};
use no_std_io2_base::traits::Write;

// Returns `true` only if none of these bytes, of which there are N to 2 N, is this one.
#[inline(always)]
fn lacks_by_ends<const N: usize>(bytes: &[u8], wanted: u8) -> bool
    requires least { N ≤ length bytes.now }
    requires most { length bytes.now ≤ N + N }
    ensures { result ≡ true → AllWithin (λ b. b ≢ wanted) bytes.now 0 (length bytes.now) }
{
    !stands_among::<N>(bytes, 0, wanted) && !stands_among::<N>(bytes, bytes.len() - N, wanted)
}

// Returns `true` only if none of these bytes, of which there are at least four, is this one.
#[inline(always)]
fn lacks_byte(bytes: &[u8], wanted: u8) -> bool
    requires { 4 ≤ length bytes.now }
    ensures { result ≡ true → AllWithin (λ b. b ≢ wanted) bytes.now 0 (length bytes.now) }
{
    if bytes.len() < 8 {
        return lacks_by_ends::<4>(bytes, wanted);
    }
    if bytes.len() < STEP {
        return lacks_by_ends::<8>(bytes, wanted);
    }
    let lacking = skip_steps(bytes, wanted);
    bytes.len() - lacking < STEP && !stands_among::<STEP>(bytes, bytes.len() - STEP, wanted)
}

// Returns `true` only if none of the bytes before the last is this one. The last byte is not looked at: the compiler knows
// it in `lines_len`, and would take the vector that has it apart.
#[inline(always)]
fn lacks_before_last(bytes: &[u8], wanted: u8) -> bool
    ensures { result ≡ true → AllWithin (λ b. b ≢ wanted) bytes.now 0 (length bytes.now - 1) }
{
    bytes.len() > 4 && lacks_byte(&bytes[..bytes.len() - 1], wanted)
}

// Returns whether the last byte is a newline.
#[inline(always)]
fn ends_in_newline(bytes: &[u8]) -> bool
    ensures { result ≡ ends_with_byte newline bytes.now }
{
    bytes.last() == Some(&b'\n')
}

// Returns the length of the lines of x: everything up to and including its last newline. Mostly that is the last byte,
// or there is none; for a short text these two cases take fewer instructions than the search. For a small buffer it is
// a loop of little code.
fn lines_len<const S: usize>(x: &[u8]) -> usize
    ensures lines { result ≡ lines_len x.now }
    ensures within { result ≤ length x.now }
{
    if S <= SMALL {
        return lines_len_by_one(x);
    }
    if ends_in_newline(x) {
        return x.len();
    }
    if x.len() < 64 && lacks_before_last(x, b'\n') {
        return 0;
    }
    if x.len() < STEP {
        return lines_len_by_one(x);
    }
    match memrchr(b'\n', x) {
        Some(at) => at + 1,
        None => 0,
    }
}

// `lines_len`, by a loop of little code.
fn lines_len_by_one(x: &[u8]) -> usize
    ensures lines { result ≡ lines_len x.now }
    ensures within { result ≤ length x.now }
{
    let mut at = x.len();
    'bytes: while at > 0 {
        if x[at - 1] == b'\n' {
            return at;
        }
        at -= 1;
    }
    0
}

// Returns where the held tail of x ends if `sent` bytes of x were sent. The first `len` bytes of x
// are its lines.
fn tail_end<const S: usize>(x: &[u8], len: usize, sent: usize) -> usize
    requires lines { len ≡ lines_len x.now }
    requires within { len ≤ length x.now }
    requires some { 0 < sent }
    requires sent { sent ≤ len }
    ensures within { result ≤ length x.now }
    ensures after { sent ≤ result }
    ensures room { result ≤ sent + S }
    ensures tail { slice_range x.now sent result ≡ held_tail S x.now sent }
{
    if sent >= len {
        return sent + (x.len() - sent).min(S);
    }
    if len - sent <= S {
        return len;
    }
    let part = lines_len::<S>(&x[sent..sent + S]);
    if part == 0 { sent + S } else { sent + part }
}

// Sends the held bytes if they end in a newline.
#[inline(always)]
fn send_line<W: Write + Drop, const S: usize>(w: &mut Sender<W, S>) -> Result<()>
    requires { IsLineState (sender_buffer w.old) }
    ensures { TakesStep W.Write sender_inner sender_buffer SendLineCalls w.old result w.new }
{
    if ends_in_newline(w.buffer()) {
        return w.send();
    }
    Ok(())
}

// Writes some first bytes of x, whose first `len` bytes are lines.
fn write_lines<W: Write + Drop, const S: usize>(
    w: &mut Sender<W, S>,
    x: &[u8],
    len: usize,
) -> Result<usize>
    requires some { 0 < len }
    requires lines { len ≡ lines_len x.now }
    requires within { len ≤ length x.now }
    ensures { TakesStep W.Write sender_inner sender_buffer (LineWriteCalls S x.now) w.old result w.new }
{
    w.send_held()?;
    let n = w.get_mut().write(&x[..len])?;
    if n == 0 || n == x.len() {
        return Ok(n);
    }
    let end = tail_end::<S>(x, len, n);
    w.hold(&x[n..end]);
    Ok(end)
}

// Writes some first bytes of x.
#[inline]
pub(super) fn write<W: Write + Drop, const S: usize>(
    w: &mut Sender<W, S>,
    x: &[u8],
) -> Result<usize>
    requires { IsLineState (sender_buffer w.old) }
    ensures { TakesStep W.Write sender_inner sender_buffer (LineWriteCalls S x.now) w.old result w.new }
{
    let len = lines_len::<S>(x);
    if len > 0 {
        return write_lines(w, x, len);
    }
    send_line(w)?;
    w.write(x)
}

// Passes on lines: straight to the inner writer if nothing is held. If not, they go through the buffer, which is then sent.
fn send_lines<W: Write + Drop, const S: usize>(w: &mut Sender<W, S>, lines: &[u8]) -> Result<()>
    ensures { TakesStep W.Write sender_inner sender_buffer (SendLinesCalls S lines.now) w.old result w.new }
{
    if w.buffer().is_empty() {
        return w.get_mut().write_all(lines);
    }
    w.write_all(lines)?;
    w.send()
}

// Writes all of x. Through a small buffer it is a call: inlined into a `write_str` it takes 64 bytes of stack more.
#[inline]
pub(super) fn write_all<W: Write + Drop, const S: usize>(
    w: &mut Sender<W, S>,
    x: &[u8],
) -> Result<()>
    requires { IsLineState (sender_buffer w.old) }
    ensures { TakesStep W.Write sender_inner sender_buffer (LineWriteAllCalls S x.now) w.old result w.new }
{
    if S <= SMALL {
        return write_all_apart(w, x);
    }
    write_all_parts(w, x)
}

// A call of `write_all_parts`.
#[inline(never)]
fn write_all_apart<W: Write + Drop, const S: usize>(w: &mut Sender<W, S>, x: &[u8]) -> Result<()>
    requires { IsLineState (sender_buffer w.old) }
    ensures { TakesStep W.Write sender_inner sender_buffer (LineWriteAllCalls S x.now) w.old result w.new }
{
    write_all_parts(w, x)
}

// The whole of `write_all`.
#[inline(always)]
fn write_all_parts<W: Write + Drop, const S: usize>(w: &mut Sender<W, S>, x: &[u8]) -> Result<()>
    requires { IsLineState (sender_buffer w.old) }
    ensures { TakesStep W.Write sender_inner sender_buffer (LineWriteAllCalls S x.now) w.old result w.new }
{
    let len = lines_len::<S>(x);
    if len == 0 {
        send_line(w)?;
        return w.write_all(x);
    }
    send_lines(w, &x[..len])?;
    // Without a buffer no bytes are passed on too, as Rust's std does.
    if S > 0 && len == x.len() {
        return Ok(());
    }
    w.write_all(&x[len..])
}
