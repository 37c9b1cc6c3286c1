// [`DecoderReader`], which decodes base64.
ghost use Rattle.std.specs.Prelude.{◌≡◌, ◌⊎◌, ◌<◌, ◌≤◌, ℕ, List, false, [], length, IfOk, IfErr, Some};
ghost use Rattle.base64.specs.{GeneralPurpose.{encode_of, IsBytes, IsConsistent}, Engines.{standard}};
ghost use Rattle.no_std_io2.specs.{Errors.{IsOutOfMemory}, inner.Kinds.{error_of}, Read.{ReadLaw}, Takes.{tells, to_come}};
ghost use Rattle.no_std_io2.specs.Events.{events_of};
ghost use Rattle.base64_stream.specs.Decoder.{DecoderMay, DecodesFront, FillsWaiting, decoder_closed, decoder_engine, decoder_events};
ghost use Rattle.base64_stream.specs.Decoder.{decoder_inner, decoder_text, decoder_turns, decoder_waiting};

use crate::text::Text;
use crate::waiting::Waiting;
use base64::engine::general_purpose::{GeneralPurpose, STANDARD};
use no_std_io2::io::{Error, ErrorKind, Read, Result, Stored};
use std::alloc::Global;

/// A reader that gives the bytes whose base64 encoding the reader below gives, four characters for up to three bytes.
///
/// It reads up to 256 characters at once, so no `BufReader` is needed below it: it reads only while it has fewer than four
/// characters, and then decodes all groups that are there. So the reader below may be up to 255 characters ahead of the
/// bytes that were given and that wait. A fault of the reader below comes at its place among the bytes, and loses nothing:
/// the characters before it are kept, and the next read continues the group. Interruptions are ignored.
///
/// Each group gives its bytes, or the error `InvalidData`: if it is no base64, if a group with padding came before it, or if
/// the text ends in its middle, and the engine does not take that. After this error the next read goes on behind the group.
///
/// Follows `DecoderReader` of the Rust crate `base64`.
#[derive(Drop)]
pub struct DecoderReader<R> {
    engine: GeneralPurpose,
    inner: R,
    text: Text,
    waiting: Waiting,
    closed: bool,
}

impl<R> DecoderReader<R> {
    /// Gets a reference to the reader below.
    pub fn get_ref(&self) -> &R
        ensures { result.now ≡ decoder_inner self.now }
    {
        &self.inner
    }

    /// Returns the reader below. The characters that were read ahead and the decoded bytes that wait are lost.
    pub fn into_inner(self) -> R
        ensures { result ≡ decoder_inner self }
    {
        self.inner
    }
}

impl<R: Read> DecoderReader<R> {
    /// Puts a decoder in front of `inner`.
    pub fn new(inner: R, engine: GeneralPurpose) -> DecoderReader<R>
        ensures inner { decoder_inner result ≡ inner }
        ensures engine { decoder_engine result ≡ engine }
        ensures text { decoder_text result ≡ [] }
        ensures waiting { decoder_waiting result ≡ [] }
        ensures closed { decoder_closed result ≡ false }

        // If the encoding of some bytes is told to come, these bytes are.
        ensures decodes { (x : List ℕ) → IsConsistent engine → IsBytes x
            → to_come (tells R.Read inner) ≡ Some (events_of (encode_of engine x))
            → decoder_events (tells R.Read) result ≡ Some (events_of x) }
    {
        DecoderReader {
            engine,
            inner,
            text: Text::new(),
            waiting: Waiting::new(),
            closed: false,
        }
    }

    // Decodes the first `n` characters at once. If the engine does not take them, it returns `false`, and they are kept.
    fn decode(&mut self, n: usize) -> bool
        requires within { n ≤ length (decoder_text self.old) }
        requires idle { decoder_waiting self.old ≡ [] }
        ensures { DecodesFront n self.old result self.new }
    {
        if self.closed {
            return false;
        }
        if !self
            .waiting
            .decode(&self.engine, &self.text.as_slice()[..n])
        {
            return false;
        }
        self.closed = self.waiting.len() < (n + 3) / 4 * 3;
        self.text.consume(n);
        true
    }

    // Decodes all groups that are there, or only the next one if they are not decoded at once. If none is there, it first reads.
    fn refill(&mut self) -> Result<()>
        requires { decoder_waiting self.old ≡ [] }
        ensures { FillsWaiting R.Read self.old result self.new }
    {
        self.text.gather(&mut self.inner)?;
        let held = self.text.len();
        if held == 0 {
            return Ok(());
        }
        let first = held.min(4);
        if self.decode((held / 4 * 4).max(first)) {
            return Ok(());
        }
        if self.decode(first) {
            return Ok(());
        }
        self.text.consume(first);
        Err(Error::from(ErrorKind::InvalidData))
    }

    // Decodes the next groups if no bytes wait.
    fn fill(&mut self) -> Result<()>
        ensures fills { FillsWaiting R.Read self.old result self.new }
        ensures ready { 0 < length (decoder_waiting self.old) → self.new ≡ self.old }
    {
        if self.waiting.is_empty() {
            return self.refill();
        }
        Ok(())
    }
}

/// Tells no store.
impl<R> Stored for DecoderReader<R> {}

/// Tells the decoding of what the reader below tells.
impl<R: Read> Read for DecoderReader<R> {
    ghost turns = { decoder_turns R.turns };

    ghost events = { decoder_events (tells R.Read) };

    // The given bytes are the decoding of what was read below.
    ghost may = { DecoderMay R.Read };

    /// Gives bytes that wait, as many as fit. If none wait, it first decodes the groups that were read, and if there is none it
    /// first reads until there is one. If bytes wait, or `buf` is empty, it makes no call.
    ///
    /// # Errors
    /// Returns the fault of the reader below, and `InvalidData` for a group that is refused; the next read continues behind
    /// it. Never returns `Interrupted`.
    fn read(&mut self, buf: &mut [u8]) -> Result<usize>
        ensures law { ReadLaw ⟦<Self as Read>⟧ self.old buf.old result buf.new self.new }
        ensures empty { length buf.old ≡ 0 → self.new ≡ self.old }
        ensures waits { 0 < length (decoder_waiting self.old) → decoder_inner self.new ≡ decoder_inner self.old }
    {
        if buf.is_empty() {
            return Ok(0);
        }
        self.fill()?;
        Ok(self.waiting.give(buf))
    }
}

/// Returns the bytes whose standard encoding this is.
///
/// # Errors
/// Returns `InvalidData` if it is the encoding of no bytes, and `OutOfMemory` if an allocation failed.
pub fn decoded(alloc: Global, text: &[u8]) -> Result<Vec<u8>>
    ensures back { (x : List ℕ) → IsBytes x → text.now ≡ encode_of standard x
        → IfOk result (λ v. v.items ≡ x) × IfErr result IsOutOfMemory }
    ensures exact { IfOk result (λ v. text.now ≡ encode_of standard v.items) }
    ensures err { IfErr result (λ e. IsOutOfMemory e ⊎ (e ≡ error_of ErrorKind.InvalidData)) }
{
    let mut r = DecoderReader::new(text, STANDARD);
    let mut bytes = Vec::new(alloc);
    r.read_to_end(&mut bytes)?;
    Ok(bytes)
}
