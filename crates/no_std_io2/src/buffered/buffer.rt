//! An array whose bytes from a start to an end are held. All buffers of this crate contain one.
ghost use Rattle.std.specs.Prelude.{◌≡◌, ◌+◌, ◌-◌, ◌<◌, ◌≤◌, [], ◌++◌, min, length, take, drop, OnOk, OnErr};
ghost use Rattle.std.specs.Prelude.{slice_range};
ghost use Rattle.std.specs.Bool.{OnTrue, OnFalse};
ghost use Rattle.no_std_io2.specs.declared.buffered.buffer.TheConstants.{SMALL};
ghost use Rattle.no_std_io2_base.specs.inner.InMemory.{AppendsPart};
ghost use Rattle.no_std_io2_base.specs.inner.Read.{GaveLaw, gave_whole};

use no_std_io2_base::error::Result;
use no_std_io2_base::internal::{append_rest, copy_apart, copy_bytes};
use no_std_io2_base::traits::Read;
use std::alloc::Allocator;

/// The most bytes of a small buffer. It is taken where code is dear, so its writers are compiled to little code: each
/// write is a call, and all copies are calls of one function.
pub(crate) const SMALL: usize = 32;

/// The held bytes are those from `start` to `end`. The bytes before `start` were held at some time
/// since the last read or `clear`, and are still in the array, so a reader may step back over them.
#[derive(Drop)]
pub(crate) struct Buffer<const S: usize> {
    bytes: [u8; S],
    start: usize,
    end: usize,
    ghost ordered: { start ≤ end },
    ghost in_range: { end ≤ S },
}

// Copies bytes over as many others, at most `S`.
#[inline(always)]
fn copy_fitting<const S: usize>(from: &[u8], to: &mut [u8])
    requires same { length from.now ≡ length to.old }
    requires fits { length from.now ≤ S }
    ensures { to.new ≡ from.now }
{
    if S <= SMALL {
        copy_apart(from, to);
        return;
    }
    copy_bytes(from, to);
}

// Copies the bytes of a small buffer over the first of others.
#[inline(always)]
fn copy_front(from: &[u8], to: &mut [u8])
    requires short { length from.now ≤ SMALL }
    requires fits { length from.now ≤ length to.old }
    ensures { to.new ≡ from.now ++ drop (length from.now) to.old }
{
    copy_apart(from, &mut to[..from.len()]);
}

// Moves the bytes from `start` to `end` to the front.
#[inline(always)]
fn move_down<const S: usize>(bytes: &mut [u8; S], start: usize, end: usize)
    requires ordered { start ≤ end }
    requires within { end ≤ S }
    ensures { take (end - start) bytes.new ≡ slice_range bytes.old start end }
{
    if S <= SMALL {
        let all = *bytes;
        let from = &all[..];
        copy_front(&from[start..end], &mut bytes[..]);
        return;
    }
    bytes.copy_within(start..end, 0);
}

impl<const S: usize> Buffer<S> {
    ghost use Rattle.no_std_io2.specs.inner.Buffer.{buffer_held, buffer_behind, IsInBuffer, IsCutOn, ReadsOn};
    ghost use Rattle.no_std_io2.specs.BufWriter.{FillsFrom};

    #[inline]
    pub(crate) fn new() -> Self
        ensures held { buffer_held result ≡ [] }
        ensures behind { buffer_behind result ≡ [] }
    {
        Buffer {
            bytes: [0; S],
            start: 0,
            end: 0,
        }
    }

    #[inline]
    pub(crate) fn len(&self) -> usize
        ensures len { result ≡ length (buffer_held self.now) }
        ensures bound { result ≤ S }
    {
        self.end - self.start
    }

    #[inline]
    pub(crate) fn as_slice(&self) -> &[u8]
        ensures value { result.now ≡ buffer_held self.now }
        ensures bound { length result.now ≤ S }
    {
        let all = &self.bytes[..];
        &all[self.start..self.end]
    }

    /// Returns the bytes that were given since the last read, right before the held ones.
    pub(crate) fn behind(&self) -> &[u8]
        ensures value { result.now ≡ buffer_behind self.now }
        ensures bound { length result.now ≤ S }
    {
        let all = &self.bytes[..];
        &all[..self.start]
    }

    #[inline]
    pub(crate) fn clear(&mut self)
        ensures held { buffer_held self.new ≡ [] }
        ensures behind { buffer_behind self.new ≡ [] }
        ensures unmoved { self.new.bytes ≡ self.old.bytes }
        ensures front { (self.new.start ≡ 0) × (self.new.end ≡ 0) }
    {
        self.start = 0;
        self.end = 0;
    }

    /// Skips the first held bytes, which then lie behind. No byte moves.
    #[inline]
    pub(crate) fn consume(&mut self, n: usize)
        requires { n ≤ length (buffer_held self.old) }
        ensures held { buffer_held self.new ≡ drop n (buffer_held self.old) }
        ensures behind { buffer_behind self.new ≡ buffer_behind self.old ++ take n (buffer_held self.old) }
        ensures unmoved { self.new.bytes ≡ self.old.bytes }
        ensures none { n ≡ 0 → self.new ≡ self.old }
    {
        self.start += n;
    }

    /// Moves the border between the bytes behind and the held bytes if it stays between their ends,
    /// and returns whether it does. No byte moves.
    pub(crate) fn shift(&mut self, offset: i64) -> bool
        ensures within { OnTrue result
            (IsInBuffer offset (length (buffer_behind self.old)) (length (buffer_held self.old))
            × IsCutOn offset (buffer_behind self.old) (buffer_held self.old)
            (buffer_behind self.new) (buffer_held self.new)) }
        ensures outside { OnFalse result (self.new ≡ self.old
            × ¬ IsInBuffer offset (length (buffer_behind self.old)) (length (buffer_held self.old))) }
    {
        match (self.start as u64).checked_add_signed(offset) {
            Some(at) if at <= self.end as u64 => {
                self.start = at as usize;
                true
            }
            _ => false,
        }
    }

    /// Gives the first bytes, as many as fill `buf`. They then lie behind.
    #[inline(always)]
    pub(crate) fn give_whole(&mut self, buf: &mut [u8])
        requires { length buf.old ≤ length (buffer_held self.old) }
        ensures gave { buf.new ≡ take (length buf.old) (buffer_held self.old) }
        ensures held { buffer_held self.new ≡ drop (length buf.old) (buffer_held self.old) }
        ensures behind { buffer_behind self.new ≡ buffer_behind self.old ++ buf.new }
        ensures none { length buf.old ≡ 0 → self.new ≡ self.old }
    {
        copy_bytes(&self.as_slice()[..buf.len()], buf);
        self.consume(buf.len());
    }

    /// Gives as many bytes as are held and fit in `buf`.
    #[inline(always)]
    pub(crate) fn give(&mut self, buf: &mut [u8]) -> usize
        ensures count { result ≡ min (length (buffer_held self.old)) (length buf.old) }
        ensures gave { take result buf.new ≡ take result (buffer_held self.old) }
        ensures held { buffer_held self.new ≡ drop result (buffer_held self.old) }
        ensures behind { buffer_behind self.new ≡ buffer_behind self.old ++ take result buf.new }
        ensures none { buffer_held self.old ≡ [] → self.new ≡ self.old }
    {
        if self.len() == 0 {
            return 0;
        }
        // A caller that reads byte by byte reads one.
        if buf.len() == 1 {
            buf[0] = self.as_slice()[0];
            self.consume(1);
            return 1;
        }
        let n = self.len().min(buf.len());
        self.give_whole(&mut buf[..n]);
        n
    }

    /// Appends the held bytes to a vector, and clears the array. If an allocation fails, it appends as
    /// many as there is room for, and keeps the rest.
    pub(crate) fn append_to<A: Allocator>(&mut self, buf: &mut Vec<u8, A>) -> Result<()>
        ensures part { AppendsPart (buffer_held self.old) (buffer_held self.new) buf.old result buf.new }
        ensures done { OnOk result ((buffer_held self.new ≡ []) × (buffer_behind self.new ≡ [])) }
        ensures kept { OnErr result
            (buffer_behind self.new ++ buffer_held self.new ≡ buffer_behind self.old ++ buffer_held self.old) }
    {
        let mut rest = self.as_slice();
        let appended = append_rest(&mut rest, buf);
        let left = rest.len();
        let n = self.len() - left;
        self.consume(n);
        appended?;
        self.clear();
        Ok(())
    }

    /// Reads once into the array. Bytes that were held before are lost, and none lie behind.
    #[inline]
    pub(crate) fn fill<R: Read>(&mut self, from: &mut R) -> Result<()>
        requires { 0 < S }
        ensures err { OnErr result (buffer_held self.new ≡ []) }
        ensures behind { buffer_behind self.new ≡ [] }
        ensures read { GaveLaw R.Read from.old S (gave_whole result (buffer_held self.new)) from.new }
    {
        self.start = 0;
        self.end = 0;
        let n = from.read(&mut self.bytes[..])?;
        self.end = n;
        Ok(())
    }

    // Moves the held bytes to the front if they are not there.
    #[inline(always)]
    fn move_to_front(&mut self)
        ensures same { buffer_held self.new ≡ buffer_held self.old }
        ensures start { self.new.start ≡ 0 }
    {
        if self.start > 0 {
            self.move_held();
        }
    }

    /// Reads once into all the room after the held bytes, which are first moved to the front. The bytes that
    /// it gave are held after the others, and none lie behind.
    pub(crate) fn read_on<R: Read>(&mut self, from: &mut R) -> Result<usize>
        ensures read { ReadsOn R.Read S from.old (buffer_held self.old) result (buffer_held self.new) from.new }
        ensures behind { buffer_behind self.new ≡ [] }
    {
        self.move_to_front();
        let all = &mut self.bytes[..];
        let n = from.read(&mut all[self.end..])?;
        self.end += n;
        Ok(n)
    }

    // Reads bytes of `from` into `bytes` after the first `filled`, until `n` more are there or the end comes first.
    fn read_behind<R: Read>(
        from: &mut R,
        bytes: &mut [u8],
        filled: &mut usize,
        n: usize,
    ) -> Result<()>
        requires { filled.old + n ≤ length bytes.old }
        ensures len { length bytes.new ≡ length bytes.old }
        ensures within { (filled.old ≤ filled.new) × (filled.new ≤ length bytes.new) }
        ensures fills { FillsFrom R.Read n from.old (take filled.old bytes.old) result (take filled.new bytes.new) from.new }
    {
        let end = *filled + n;
        from.read_full(&mut bytes[..end], filled)
    }

    /// Reads into the room after the held bytes, which are first moved to the front, until `n` more are held or the
    /// end comes first.
    pub(crate) fn read_full_on<R: Read>(&mut self, from: &mut R, n: usize) -> Result<()>
        requires { length (buffer_held self.old) + n ≤ S }
        ensures { FillsFrom R.Read n from.old (buffer_held self.old) result (buffer_held self.new) from.new }
    {
        self.move_to_front();
        Self::read_behind(from, &mut self.bytes[..], &mut self.end, n)
    }

    /// Drops the first held bytes. No byte moves. If none are left, start and end go back to 0.
    #[inline]
    pub(crate) fn drop_front(&mut self, n: usize)
        requires { n ≤ length (buffer_held self.old) }
        ensures held { buffer_held self.new ≡ drop n (buffer_held self.old) }
        ensures unmoved { self.new.bytes ≡ self.old.bytes }
        ensures emptied { buffer_held self.new ≡ [] → (self.new.start ≡ 0) × (self.new.end ≡ 0) }
    {
        self.consume(n);
        if self.len() == 0 {
            self.clear();
        }
    }

    // Moves the held bytes to the front.
    #[cold]
    #[inline(never)]
    fn move_held(&mut self)
        ensures same { buffer_held self.new ≡ buffer_held self.old }
        ensures start { self.new.start ≡ 0 }
        ensures room { S - self.new.end ≡ S - length (buffer_held self.new) }
    {
        move_down(&mut self.bytes, self.start, self.end);
        self.end -= self.start;
        self.start = 0;
    }

    // Copies `more` to the room after the end, in which it fits. No held byte moves.
    #[inline]
    fn append(&mut self, more: &[u8])
        requires { length more.now ≤ S - self.old.end }
        ensures held { buffer_held self.new ≡ buffer_held self.old ++ more.now }
        ensures unmoved { self.new.start ≡ self.old.start }
        ensures end { self.new.end ≡ self.old.end + length more.now }
    {
        let end = self.end + more.len();
        let all = &mut self.bytes[..];
        copy_fitting::<S>(more, &mut all[self.end..end]);
        self.end = end;
    }

    /// Appends `more`. The held bytes move only if it does not fit after the end.
    pub(crate) fn push(&mut self, more: &[u8])
        requires { length (buffer_held self.old) + length more.now ≤ S }
        ensures held { buffer_held self.new ≡ buffer_held self.old ++ more.now }
        ensures unmoved { length more.now ≤ S - self.old.end → self.new.start ≡ self.old.start }
    {
        if more.len() > S - self.end {
            self.move_held();
        }
        self.append(more);
    }

    /// Appends `more` if that leaves room after the end. No held byte moves.
    #[inline(always)]
    pub(crate) fn append_if_room(&mut self, more: &[u8]) -> bool
        ensures held { OnTrue result ((length more.now < S - self.old.end)
            × (length (buffer_held self.old) + length more.now < S)
            × (buffer_held self.new ≡ buffer_held self.old ++ more.now)) }
        ensures same { OnFalse result (self.new ≡ self.old) }
    {
        if self.end + more.len() >= S {
            return false;
        }
        self.append(more);
        true
    }

    /// Appends both if they fit after the end, with one test for both.
    #[inline(always)]
    pub(crate) fn append_both_if_room(&mut self, head: &[u8], tail: &[u8]) -> bool
        requires { length head.now + length tail.now < S }
        ensures held { OnTrue result ((length (buffer_held self.old) + (length head.now + length tail.now) ≤ S)
            × (buffer_held self.new ≡ (buffer_held self.old ++ head.now) ++ tail.now)) }
        ensures same { OnFalse result (self.new ≡ self.old) }
    {
        if head.len() + tail.len() > S - self.end {
            return false;
        }
        self.append(head);
        self.append(tail);
        true
    }
}
