// Copies of short slices, without a call of `memcpy`.
ghost use Rattle.std.specs.Prelude.{◌≡◌, ◌≤◌, ◌<◌, ◌+◌, ◌++◌, min, length, take, drop};

use std::simd::Simd;

// Copies a slice of N to 2 N bytes by two moves of N bytes, its first and its last,
// which may overlap.
#[inline(always)]
fn copy_ends<const N: usize>(from: &[u8], to: &mut [u8])
    requires same { length from.now ≡ length to.old }
    requires least { N ≤ length from.now }
    requires most { length from.now ≤ N + N }
    ensures { to.new ≡ from.now }
{
    let back = from.len() - N;
    let (first, last) = (
        Simd::<u8, N>::from_slice(from),
        Simd::<u8, N>::from_slice(&from[back..]),
    );
    first.copy_to_slice(to);
    last.copy_to_slice(&mut to[back..]);
}

// Copies a slice of fewer than eight bytes.
#[inline(always)]
fn copy_few(from: &[u8], to: &mut [u8])
    requires same { length from.now ≡ length to.old }
    requires few { length from.now ≤ 7 }
    ensures { to.new ≡ from.now }
{
    if from.len() >= 4 {
        copy_ends::<4>(from, to);
    } else if from.len() >= 2 {
        copy_ends::<2>(from, to);
    } else if from.len() == 1 {
        to[0] = from[0];
    }
}

// Copies a slice of more than 64 bytes, in place up to 128. It is not inlined: LLVM does not know that the slices
// cannot overlap, and compiles a copy to a test, a call and loops.
#[inline(never)]
fn copy_long(to: &mut [u8], from: &[u8])
    requires same { length to.old ≡ length from.now }
    requires long { 64 < length from.now }
    ensures { to.new ≡ from.now }
{
    if from.len() > 128 {
        to.copy_from_slice(from);
    } else {
        copy_ends::<64>(from, to);
    }
}

/// Copies bytes over as many others. Up to 128 bytes are moved without a call of `memcpy`, and up to 64 without any,
/// since most pieces that go through a stream are short. Follows `copy_from_slice` of std's slices.
#[inline(always)]
pub fn copy_bytes(from: &[u8], to: &mut [u8])
    requires { length from.now ≡ length to.old }
    ensures { to.new ≡ from.now }
{
    if from.len() > 32 {
        if from.len() > 64 {
            copy_long(to, from);
        } else {
            copy_ends::<32>(from, to);
        }
    } else if from.len() >= 16 {
        copy_ends::<16>(from, to);
    } else if from.len() >= 8 {
        copy_ends::<8>(from, to);
    } else {
        copy_few(from, to);
    }
}

/// Copies at most 32 bytes over as many others. It is not inlined: the code of all small buffers has it once.
#[inline(never)]
pub fn copy_apart(from: &[u8], to: &mut [u8])
    requires same { length from.now ≡ length to.old }
    requires short { length from.now ≤ 32 }
    ensures { to.new ≡ from.now }
{
    if from.len() >= 16 {
        copy_ends::<16>(from, to);
    } else if from.len() >= 8 {
        copy_ends::<8>(from, to);
    } else {
        copy_few(from, to);
    }
}

// Copies as many bytes as both slices have, and returns their number.
#[inline(always)]
pub(crate) fn copy_prefix(from: &[u8], to: &mut [u8]) -> usize
    ensures count { result ≡ min (length from.now) (length to.old) }
    ensures copied { to.new ≡ take result from.now ++ drop result to.old }
{
    // A caller that reads byte by byte reads one.
    if to.len() == 1 && !from.is_empty() {
        to[0] = from[0];
        return 1;
    }
    let n = from.len().min(to.len());
    copy_bytes(&from[..n], &mut to[..n]);
    n
}
