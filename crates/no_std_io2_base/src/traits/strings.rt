// The parts of which the calls that read into a string are made.
ghost use Rattle.std.specs.Prelude.{◌≡◌, ◌≢◌, ◌<◌, ◌≤◌, ◌+◌, ◌⊎◌, true, false, length, IfErr, IfOk, IsErrAnd, IsUtf8};
ghost use Rattle.std.specs.Prelude.{string_bytes, string_len, string_capacity, vec_len, vec_capacity, take, drop};
ghost use Rattle.std.specs.String.{string_vec};
ghost use Rattle.std.specs.Bool.{OnTrue, OnFalse};
ghost use Rattle.no_std_io2_base.specs.inner.Lines.{IsInvalidText, AnswersLine, Follows};
ghost use Rattle.no_std_io2_base.specs.Errors.{error_kind};
ghost use Rattle.no_std_io2_base.specs.declared.error.ErrorKind.TheVariants.{OutOfMemory};

use crate::error::{Error, ErrorKind, Result};
use std::alloc::Global;
use std::mem;

// Returns these bytes as a string, or `InvalidData` if they are not UTF-8.
pub(super) fn text_of(bytes: Vec<u8>) -> Result<String>
    ensures ok { IfOk result (λ text. string_bytes text ≡ bytes.items) }
    ensures err { IfErr result (λ e. (IsUtf8 bytes.items → ⊥) × IsInvalidText e) }
{
    match String::from_utf8(bytes) {
        Ok(text) => Ok(text),
        Err(_refused) => Err(invalid_text()),
    }
}

// Appends a line to a string if it is UTF-8 and the string has room for it, and returns whether it
// did. If not, the string is unchanged.
pub(super) fn append_text(buf: &mut String, line: &[u8]) -> bool
    ensures appended { OnTrue result (Follows line.now (string_bytes buf.old) (string_bytes buf.new)
        × (string_len buf.new ≡ string_len buf.old + length line.now)) }
    ensures same { OnFalse result (buf.new ≡ buf.old) }
    ensures refused { OnFalse result ((string_capacity buf.old < string_len buf.old + length line.now) ⊎ (IsUtf8 line.now → ⊥)) }
    ensures capacity { string_capacity buf.old ≤ string_capacity buf.new }
{
    if line.len() > buf.capacity() - buf.len() {
        return false;
    }
    let Ok(text) = std::str::from_utf8(line) else {
        return false;
    };
    // There is room, so this does not allocate.
    let _ = buf.push_str(text);
    true
}

// Takes the bytes of a string with their memory. The string is then empty.
#[inline(always)]
pub(super) fn take_bytes(alloc: Global, buf: &mut String) -> Vec<u8>
    ensures { result ≡ string_vec buf.old }
{
    mem::replace(buf, String::new(alloc)).into_bytes()
}

// Returns whether these bytes are UTF-8.
fn is_text(bytes: &[u8]) -> bool
    ensures yes { result ≡ true → IsUtf8 bytes.now }
    ensures no { result ≡ false → IsUtf8 bytes.now → ⊥ }
{
    std::str::from_utf8(bytes).is_ok()
}

// Returns the string of the first `len` bytes, with the memory of all.
fn text_front(mut bytes: Vec<u8>, len: usize) -> String
    requires { IsUtf8 (take len bytes.items) }
    ensures bytes { string_bytes result ≡ take len bytes.items }
    ensures capacity { string_capacity result ≡ vec_capacity bytes }
{
    bytes.truncate(len);
    unsafe { String::from_utf8_unchecked(bytes) }
}

// Gives a string back its memory, in which a line was read behind its `start` bytes, and returns the result of the read.
// The line stays if it is UTF-8, and the read did not fail for lack of memory.
//
// # Errors
// Returns the read's error if the read failed, and `InvalidData` if the line is not UTF-8.
pub(super) fn put_back(
    buf: &mut String,
    bytes: Vec<u8>,
    start: usize,
    read: Result<usize>,
) -> Result<usize>
    requires within { start ≤ vec_len bytes }
    requires text { IsUtf8 (take start bytes.items) }
    ensures answers { AnswersLine (drop start bytes.items) read result (take start bytes.items) (string_bytes buf.new) }
    ensures capacity { string_capacity buf.new ≡ vec_capacity bytes }
{
    if is_out_of_memory(&read) {
        *buf = text_front(bytes, start);
        return read;
    }
    if is_text(&bytes[start..]) {
        *buf = unsafe { String::from_utf8_unchecked(bytes) };
        return read;
    }
    *buf = text_front(bytes, start);
    read.and(Err(invalid_text()))
}

// Returns whether the read failed because an allocation failed.
fn is_out_of_memory(read: &Result<usize>) -> bool
    ensures memory { result ≡ true → IsErrAnd read.now (λ e. error_kind e ≡ OutOfMemory) }
    ensures other { result ≡ false → IfErr read.now (λ e. error_kind e ≢ OutOfMemory) }
{
    matches!(read, Err(e) if e.kind() == ErrorKind::OutOfMemory)
}

// The error of bytes that are not UTF-8.
fn invalid_text() -> Error
    ensures { IsInvalidText result }
{
    let message = "stream did not contain valid UTF-8";
    Error::new(ErrorKind::InvalidData, message)
}
