// [`EncoderWriter`], which passes on base64.
ghost use Rattle.std.specs.Prelude.{◌≡◌, ◌+◌, ◌*◌, ◌%◌, ◌/◌, ◌<◌, ◌≢◌, ◌≤◌, true, false, [], ◌++◌, length, take, IfOk, IsErrAnd, OnOk};
ghost use Rattle.std.specs.Prelude.{OnErr};
ghost use Rattle.base64.specs.{GeneralPurpose.{encode_of}, Engines.{standard}};
ghost use Rattle.no_std_io2.specs.{BufWriter.{Unwraps, writer_inner, writer_buffer}, Write.{CallAdds}, Writers.{WriteOf, FlushOf}};
ghost use Rattle.base64_stream.specs.Encoder.{Encodes64, KeepsGroup, PutsText, encoder_accepted, encoder_engine, encoder_held};
ghost use Rattle.base64_stream.specs.Encoder.{encoder_inner, encoder_told, encoder_writer, is_closed, unfinished, will_have};
ghost use Rattle.base64_stream.specs.Finish.{FinishesText, HasFinished, LastPut, PutsGroups, SaysClosed};

use crate::group::Group;
use base64::engine::general_purpose::{GeneralPurpose, STANDARD};
use no_std_io2::ghost_bytes::GhostBytes;
use no_std_io2::io::{BufWriter, Error, ErrorKind, IntoInnerError, Result, Write};
use std::alloc::Global;

/// A writer that passes on the base64 encoding of what is written to it, through a buffer of `S` bytes, more than 4.
///
/// What the device will have once the encoder is finished is always the encoding of exactly the accepted bytes, after every
/// `write`, `flush`, `finish`, error and retry. A `flush` sends all whole groups of three bytes; up to two bytes stay in the
/// encoder until more come, or until [`finish`](EncoderWriter::finish). So contracts see every accepted byte as *out*, also
/// one that waits here, and `may` has the truth.
///
/// Dropping it tries once to send the text that waits, and loses an unfinished group; call `finish` first. Follows
/// `EncoderWriter` of the Rust crate `base64`.
#[derive(Drop)]
pub struct EncoderWriter<W: Write + Drop, const S: usize> {
    engine: GeneralPurpose,
    inner: BufWriter<W, S>,
    group: Group<S>,
    closed: bool,
    // All bytes that were accepted.
    accepted: GhostBytes,
}

// Encodes the bytes of `group` and `more` at the start of `text`, and returns the length of the encoding.
fn encode(engine: &GeneralPurpose, group: &[u8], more: &[u8], text: &mut [u8; 256]) -> usize
    requires { length group.now + length more.now ≤ 192 }
    ensures text { take result text.new ≡ encode_of engine.now (group.now ++ more.now) }
    ensures fits { result ≤ 256 }
    ensures short { result ≤ (length group.now + length more.now + 2) / 3 * 4 }
{
    if group.is_empty() {
        return encode_bytes(engine, more, text);
    }
    encode_joined(engine, group, more, text)
}

// The same, by way of a copy of both.
fn encode_joined(engine: &GeneralPurpose, group: &[u8], more: &[u8], text: &mut [u8; 256]) -> usize
    requires { length group.now + length more.now ≤ 192 }
    ensures text { take result text.new ≡ encode_of engine.now (group.now ++ more.now) }
    ensures fits { result ≤ 256 }
    ensures short { result ≤ (length group.now + length more.now + 2) / 3 * 4 }
{
    let mut bytes = [0u8; 192];
    put_at(&mut bytes, 0, group);
    put_at(&mut bytes, group.len(), more);
    encode_bytes(engine, &bytes[..group.len() + more.len()], text)
}

// Copies `x` into `bytes` from the place `at` on.
fn put_at(bytes: &mut [u8; 192], at: usize, x: &[u8])
    requires { at + length x.now ≤ 192 }
    ensures { take (at + length x.now) bytes.new ≡ take at bytes.old ++ x.now }
{
    bytes[at..at + x.len()].copy_from_slice(x);
}

// The same of bytes in a row.
fn encode_bytes(engine: &GeneralPurpose, bytes: &[u8], text: &mut [u8; 256]) -> usize
    requires { length bytes.now ≤ 192 }
    ensures text { take result text.new ≡ encode_of engine.now bytes.now }
    ensures fits { result ≤ 256 }
    ensures short { result ≤ (length bytes.now + 2) / 3 * 4 }
{
    let room: &mut [u8] = text;
    let Ok(len) = engine.encode_slice(bytes, room) else {
        unreachable!();
    };
    len
}

// Makes the error of a write behind the end of the text.
fn closed() -> Error
    ensures { SaysClosed result }
{
    let text = "the text is finished";
    Error::new(ErrorKind::InvalidInput, text)
}

impl<W: Write + Drop, const S: usize> EncoderWriter<W, S> {
    /// Puts an encoder in front of `inner`.
    pub fn new(inner: W, engine: GeneralPurpose) -> EncoderWriter<W, S>
        requires { 4 < S }
        ensures inner { encoder_inner result ≡ inner }
        ensures engine { encoder_engine result ≡ engine }
        ensures empty { encoder_held result ≡ [] }
        ensures none { unfinished result ≡ [] }
        ensures open { is_closed result ≡ false }
        ensures accepted { encoder_accepted result ≡ [] }
    {
        EncoderWriter {
            engine,
            inner: BufWriter::new(inner),
            group: Group::new(),
            closed: false,
            accepted: GhostBytes::new(),
        }
    }

    /// Gets a reference to the writer below.
    pub fn get_ref(&self) -> &W
        ensures { result.now ≡ encoder_inner self.now }
    {
        self.inner.get_ref()
    }

    /// Sends the text that waits and returns the writer below, which is not flushed. An unfinished group is lost, so call
    /// [`finish`](EncoderWriter::finish) first; then it makes no call.
    ///
    /// # Errors
    /// Returns the errors of the sending, with the buffered writer, which holds the text that was not sent.
    pub fn into_inner(self) -> std::result::Result<W, IntoInnerError<BufWriter<W, S>>>
        ensures law { Unwraps W.Write writer_inner writer_buffer (encoder_writer self) result }
    {
        let EncoderWriter { inner, .. } = self;
        inner.into_inner()
    }

    /// Puts the last group into the buffer, with padding if the engine pads, sends all text, and flushes the writer below.
    /// From then on nothing is accepted. After `Ok` the device has the encoding of all accepted bytes.
    ///
    /// # Errors
    /// Returns the errors of a `flush`. What the device will have has not changed, so the same call continues, and no byte
    /// goes out twice. Never returns `Interrupted` before the flush of the writer below.
    pub fn finish(&mut self) -> Result<()>
        ensures accepted { encoder_accepted self.new ≡ encoder_accepted self.old }
        ensures keeps { will_have W.told self.new [] ≡ will_have W.told self.old [] }
        ensures done { OnOk result (HasFinished W.told self.old self.new) }
        ensures finishes { FinishesText W.Write ⟦<BufWriter<W, S> as Write>⟧ self.old result self.new }
    {
        self.close()?;
        self.inner.flush()
    }

    // Returns whether a write of these bytes comes after the end of the text.
    fn refuses(&self, buf: &[u8]) -> bool
        ensures yes { result ≡ true → (is_closed self.now ≡ true) × (0 < length buf.now) }
        ensures no { result ≡ false → is_closed self.now ≡ true → length buf.now ≡ 0 }
    {
        self.closed && !buf.is_empty()
    }

    // Returns how many of these bytes make whole groups with the unfinished one, of those whose text fits the buffer.
    fn fitting(&self, buf: &[u8]) -> usize
        requires { 3 ≤ length (unfinished self.now) + length buf.now }
        ensures some { 0 < result }
        ensures within { result ≤ length buf.now }
        ensures whole { (length (unfinished self.now) + result) % 3 ≡ 0 }
        ensures most { length (unfinished self.now) + result ≤ 192 }
        ensures room { (length (unfinished self.now) + result + 2) / 3 * 4 < S }
    {
        let held = self.group.as_slice().len();
        let most = ((S - 1) / 4).min(64);
        ((held + buf.len()) / 3).min(most) * 3 - held
    }

    // Puts the last group into the buffer, once.
    fn close(&mut self) -> Result<()>
        ensures accepted { encoder_accepted self.new ≡ encoder_accepted self.old }
        ensures engine { encoder_engine self.new ≡ encoder_engine self.old }
        ensures put { OnOk result (LastPut W.Write self.old self.new × (is_closed self.new ≡ true) × (unfinished self.new ≡ [])) }
        ensures err { OnErr result ((unfinished self.old ≢ []) × KeepsGroup self.old self.new
            × PutsText W.Write (encode_of (encoder_engine self.old) (unfinished self.old)) self.old result self.new) }
    {
        if self.group.is_empty() {
            self.closed = true;
            return Ok(());
        }
        self.put_last()
    }

    // The same of a group with some bytes.
    fn put_last(&mut self) -> Result<()>
        requires { unfinished self.old ≢ [] }
        ensures some { unfinished self.old ≢ [] }
        ensures accepted { encoder_accepted self.new ≡ encoder_accepted self.old }
        ensures engine { encoder_engine self.new ≡ encoder_engine self.old }
        ensures put { OnOk result ((is_closed self.new ≡ true) × (unfinished self.new ≡ [])) }
        ensures err { OnErr result (KeepsGroup self.old self.new) }
        ensures puts { PutsText W.Write (encode_of (encoder_engine self.old) (unfinished self.old)) self.old result self.new }
    {
        self.put_text(&[])?;
        self.group = Group::new();
        self.closed = true;
        Ok(())
    }

    // Puts the encoding of the group and of `buf`, which make whole groups, into the buffer.
    fn put(&mut self, buf: &[u8]) -> Result<()>
        requires within { length (unfinished self.old) + length buf.now ≤ 192 }
        requires room { (length (unfinished self.old) + length buf.now + 2) / 3 * 4 < S }
        ensures puts { PutsText W.Write (encode_of (encoder_engine self.old) (unfinished self.old ++ buf.now)) self.old result self.new }
        ensures ok { OnOk result ((unfinished self.new ≡ []) × (encoder_accepted self.new ≡ encoder_accepted self.old ++ buf.now)) }
        ensures err { OnErr result (KeepsGroup self.old self.new) }
        ensures engine { encoder_engine self.new ≡ encoder_engine self.old }
        ensures closed { is_closed self.new ≡ is_closed self.old }
    {
        self.put_text(buf)?;
        self.group.clear();
        self.accepted.add(buf);
        Ok(())
    }

    // Puts the encoding of the group and of `more` into the buffer, whole or not at all.
    fn put_text(&mut self, more: &[u8]) -> Result<()>
        requires within { length (unfinished self.old) + length more.now ≤ 192 }
        requires room { (length (unfinished self.old) + length more.now + 2) / 3 * 4 < S }
        ensures puts { PutsText W.Write (encode_of (encoder_engine self.old) (unfinished self.old ++ more.now)) self.old result self.new }
        ensures keeps { KeepsGroup self.old self.new }
    {
        let mut text = [0u8; 256];
        let len = encode(&self.engine, self.group.as_slice(), more, &mut text);
        self.inner.write_whole(&text[..len], &[])
    }
}

impl<W: Write + Drop, const S: usize> Write for EncoderWriter<W, S> {
    ghost told = { encoder_told W.told };

    // The device will have the accepted bytes encoded.
    ghost may = { CallAdds (Encodes64 W.told) };

    /// Accepts some first bytes of `buf`, at most 192, and as many as the buffer has room for. A text that is finished accepts none.
    ///
    /// # Errors
    /// Returns `InvalidInput` if the text is finished and `buf` is not empty. Returns the errors of the sending, if the text
    /// has no room in the buffer. Nothing of `buf` was then accepted.
    fn write(&mut self, buf: &[u8]) -> Result<usize>
        ensures law { WriteOf ⟦<Self as Write>⟧ self.old buf.now result self.new }
        ensures puts { PutsGroups W.Write self.old buf.now result self.new }
        ensures open { is_closed self.new ≡ is_closed self.old }
        ensures end { is_closed self.old ≡ true → 0 < length buf.now → IsErrAnd result SaysClosed × (self.new ≡ self.old) }
    {
        if self.refuses(buf) {
            return Err(closed());
        }
        let held = self.group.as_slice().len();
        if held + buf.len() < 3 {
            self.group.keep(buf);
            self.accepted.add(buf);
            return Ok(buf.len());
        }
        let n = self.fitting(buf);
        self.put(&buf[..n])?;
        Ok(n)
    }

    /// Sends all whole groups, and flushes the writer below.
    fn flush(&mut self) -> Result<()>
        ensures law { FlushOf ⟦<Self as Write>⟧ self.old result self.new }
        ensures keeps { KeepsGroup self.old self.new }
        ensures sends { FlushOf ⟦<BufWriter<W, S> as Write>⟧ (encoder_writer self.old) result (encoder_writer self.new) }
    {
        self.inner.flush()
    }
}

/// Returns the encoding of these bytes.
///
/// # Errors
/// Returns `OutOfMemory` if an allocation failed.
pub fn encoded(alloc: Global, bytes: &[u8]) -> Result<Vec<u8>>
    ensures { IfOk result (λ v. v.items ≡ encode_of standard bytes.now) }
{
    let mut w = EncoderWriter::<_, 256>::new(Vec::<u8>::new(alloc), STANDARD);
    w.write_all(bytes)?;
    w.finish()?;
    match w.into_inner() {
        Ok(v) => Ok(v),
        Err(e) => Err(e.into()),
    }
}
