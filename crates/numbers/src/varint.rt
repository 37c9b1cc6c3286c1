//! Numbers of variable length, LEB128, as DWARF, WebAssembly and protobuf have them.
ghost use Rattle.std.specs.Prelude.{◌≡◌, ◌≤◌, ◌<◌, ◌^◌, ℕ, List, length, take, IfSome, IfNone, IfOk};
ghost use Rattle.no_std_io2.specs.{Reads.{TakesBytes}, Takes.{tells}, Writers.{WriteAllOf}};
ghost use Rattle.numbers.specs.Varint.{GathersBack, GathersVarint, IsGathered, IsRefused, ReadsVarint, ReadsVarintBack, SaysNoVarint};
ghost use Rattle.numbers.specs.Varint.{SpellsVarint, varint_value};

use crate::ReadBytesExt;
use no_std_io2::io::{Error, ErrorKind, Read, Result, Write};

/// Writes a number in groups of seven bits, the lowest first, by one `write_all` of at most ten bytes.
///
/// # Errors
/// Returns the error of that `write_all`. Some first bytes of the number were then accepted.
pub fn write_varint<W: Write>(w: &mut W, n: u64) -> Result<()>
    ensures { (bytes : List ℕ) × SpellsVarint n bytes × WriteAllOf W.Write w.old bytes result w.new }
{
    let mut bytes = [0u8; 10];
    let len = put_varint(n, &mut bytes);
    w.write_all(&bytes[..len])
}

// Puts the bytes of a number at the front of `bytes`, and returns how many they are.
fn put_varint(n: u64, bytes: &mut [u8; 10]) -> usize
    ensures spells { SpellsVarint n (take result bytes.new) }
    ensures most { result ≤ 10 }
{
    let mut left = n;
    'bytes: for i in 0..9 {
        if left < 128 {
            bytes[i] = left as u8;
            return i + 1;
        }
        bytes[i] = (left % 128) as u8 + 128;
        left /= 128;
    }
    bytes[9] = left as u8;
    10
}

/// Reads a number that `write_varint` wrote, byte by byte up to its last one. So put a `BufReader` below.
///
/// # Errors
/// Returns the error of a `read_u8` that fails; the bytes before it are taken then. Returns `InvalidData`, `no number of
/// 64 bits`, if the number is 2^64 or more, or if it is not the shortest: its last byte is 0. The bytes are taken then, at
/// most ten. Never returns `Interrupted`.
pub fn read_varint<R: Read>(r: &mut R) -> Result<u64>
    ensures reads { ReadsVarint R.Read r.old result r.new }
    ensures takes { IfOk result
        (λ n. (bytes : List ℕ) × SpellsVarint n bytes × TakesBytes (tells R.Read r.old) bytes (tells R.Read r.new)) }
    ensures back { ReadsVarintBack R.Read r.old result r.new }
{
    let mut bytes = [0u8; 10];
    let len = gather(r, &mut bytes)?;
    match decode(&bytes[..len]) {
        Some(n) => Ok(n),
        None => Err(no_number()),
    }
}

// Reads bytes up to one below 128, at most ten, and returns how many they are.
fn gather<R: Read>(r: &mut R, bytes: &mut [u8; 10]) -> Result<usize>
    ensures reads { GathersVarint R.Read r.old bytes.new result r.new }
    ensures back { GathersBack R.Read r.old bytes.new result r.new }
    ensures within { IfOk result (λ n. n ≤ 10) }
{
    'bytes: for i in 0..10 {
        let b = r.read_u8()?;
        bytes[i] = b;
        if b < 128 {
            return Ok(i + 1);
        }
    }
    Ok(10)
}

// Returns the number of these bytes, or `None` if no number below 2^64 begins with them.
fn decode(bytes: &[u8]) -> Option<u64>
    requires gathered { IsGathered bytes.now }
    requires some { 0 < length bytes.now }
    ensures some { IfSome result (λ n. SpellsVarint n bytes.now) }
    ensures none { IfNone result (IsRefused bytes.now) }
{
    let last = bytes[bytes.len() - 1];
    if last >= 128 {
        return None;
    }
    if last == 0 && bytes.len() > 1 {
        return None;
    }
    value_of(bytes)
}

// Returns what these bytes spell, if it is below 2^64.
fn value_of(bytes: &[u8]) -> Option<u64>
    ensures some { IfSome result (λ n. n ≡ varint_value bytes.now) }
    ensures none { IfNone result (2 ^ 64 ≤ varint_value bytes.now) }
{
    let mut n = 0u64;
    let mut i = bytes.len();
    'bytes: while i > 0 {
        if n >= 0x0200_0000_0000_0000 {
            return None;
        }
        i -= 1;
        n = n * 128 + u64::from(bytes[i] % 128);
    }
    Some(n)
}

// Makes the error of bytes that are no number of 64 bits.
fn no_number() -> Error
    ensures { SaysNoVarint result }
{
    let text = "no number of 64 bits";
    Error::new(ErrorKind::InvalidData, text)
}
