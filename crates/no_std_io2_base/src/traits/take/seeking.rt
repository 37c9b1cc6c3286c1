// How a `Take` seeks.
ghost use Rattle.std.specs.Int.{w64};
ghost use Rattle.std.specs.Prelude.{FitsSigned, ◌≡◌, ◌≢◌, ◌<◌, ◌≤◌, ◌^◌, ℕ, Ok, IfOk, IfErr};
ghost use Rattle.no_std_io2_base.specs.inner.Seek.{IsAtOffset};
ghost use Rattle.no_std_io2_base.specs.Seek.{SeekLaw, StreamLenLaw, StreamPositionLaw, SeekRelativeLaw};
ghost use Rattle.no_std_io2_base.specs.Calls.{Sought, Measured, Moved};
ghost use Rattle.no_std_io2_base.specs.inner.Errors.{IsInvalidSeek};
ghost use Rattle.no_std_io2_base.specs.inner.Take.{limit_set, limit_position, IsWithin, IsStep, LimitSteps, LimitGoes, LimitMaySeek};

use super::Take;
use crate::error::{Result, invalid_seek};
use crate::traits::{Seek, SeekFrom};

// Returns the offset of one step towards a position, and where the step leads.
fn step_towards(to: u64, from: u64) -> (i64, u64)
    ensures fits { FitsSigned w64 result.0 }
    ensures step { IsStep from to result.0 }
    ensures leads { IsAtOffset from result.0 result.1 }
    ensures between { (from ≤ to → (from ≤ result.1) × (result.1 ≤ to)) × (to ≤ from → (to ≤ result.1) × (result.1 ≤ from)) }
    ensures moves { from ≢ to → result.1 ≢ from }
{
    match to.checked_signed_diff(from) {
        Some(offset) => (offset, to),
        None if from < to => (i64::MAX, from + i64::MAX as u64),
        None => (i64::MIN, from - i64::MIN.unsigned_abs()),
    }
}

impl<T> Take<T> {
    // Returns how far the limit has fallen. Not public, as in Rust's stable std.
    fn position(&self) -> u64
        ensures is { result ≡ limit_position self.now }
        ensures fits { result < 2 ^ 64 }
    {
        self.len.saturating_sub(self.limit)
    }

    // Returns the target of a seek, if it is within this `Take`.
    fn target_within(&self, pos: SeekFrom) -> Result<u64>
        ensures is { IfOk result (IsWithin self.now pos) }
        ensures none { IfErr result (λ e. ((n : ℕ) → IsWithin self.now pos n → ⊥) × IsInvalidSeek e) }
    {
        let at = pos.target(self.len, self.position())?;
        if at > self.len {
            return Err(invalid_seek());
        }
        Ok(at)
    }
}

impl<T: Seek> Take<T> {
    // Makes one step of the inner stream, which leads to this position.
    fn step(&mut self, offset: i64, at: u64) -> Result<()>
        requires leads { IsAtOffset (limit_position self.old) offset at }
        requires within { at ≤ limit_set self.old }
        ensures { LimitSteps T.Seek self.old offset result self.new }
    {
        self.inner.seek_relative(offset)?;
        self.limit = self.len - at;
        Ok(())
    }

    // Goes to this position. If it is too far for one step of the inner stream, it makes several.
    fn go_to(&mut self, at: u64) -> Result<u64>
        requires { at ≤ limit_set self.old }
        ensures { LimitGoes T.Seek at self.old result self.new }
    {
        'steps: while self.position() != at {
            let (offset, next) = step_towards(at, self.position());
            self.step(offset, next)?;
        }
        Ok(at)
    }
}

/// Positions are counted from where the limit was set, up to this limit: a seek within them moves the
/// inner stream by `seek_relative`, and lowers or raises the limit. `End` counts from the limit, also if
/// the inner stream ends before it. `stream_position` and `stream_len` make no inner call. Follows
/// `std::io::Seek for Take`.
///
/// # Errors
/// `seek` and `seek_relative` return `InvalidInput` if the target is below 0 or past the limit that was
/// set; then no inner call is made. They return the error of an inner `seek_relative` that fails; the
/// limit is then as it was. If the target is too far for one `i64`, a `seek` makes several inner calls, and
/// the limit is then as the last one that succeeded left it.
///
/// ```rust
/// let mut r = Cursor::new(*b"-abc-").take(4);
/// r.seek_relative(1)?;
/// let mut two = [0u8; 2];
/// r.read_exact(&mut two)?;
/// assert!(rt; two == *b"ab");
/// assert!(rt; r.seek(SeekFrom::End(-4))? == 0);
/// assert!(rt; r.limit() == 4);
/// ```
impl<T: Seek> Seek for Take<T> {
    ghost may = { LimitMaySeek T.Seek };

    fn seek(&mut self, pos: SeekFrom) -> Result<u64>
        ensures law { SeekLaw ⟦<Self as Seek>⟧ self.old pos result self.new }

        // It goes to its target by steps of the inner stream, or is refused.
        ensures own { LimitMaySeek T.Seek self.old (Sought pos result) self.new }
    {
        let at = self.target_within(pos)?;
        self.go_to(at)
    }

    fn stream_position(&mut self) -> Result<u64>
        ensures law { StreamPositionLaw ⟦<Self as Seek>⟧ self.old result self.new }
        ensures same { self.new ≡ self.old }
        ensures position { result ≡ Ok (limit_position self.old) }
    {
        Ok(self.position())
    }

    #[tactic(auto, using(crate::proofs::CursorLemmas::len_measured))]
    fn stream_len(&mut self) -> Result<u64>
        ensures law { StreamLenLaw ⟦<Self as Seek>⟧ self.old result self.new }

        // It is one call of this type, as its `may` says, and not the seeks of the trait's body.
        ensures own { LimitMaySeek T.Seek self.old (Measured result) self.new }
    {
        Ok(self.len)
    }

    fn seek_relative(&mut self, offset: i64) -> Result<()>
        ensures law { SeekRelativeLaw ⟦<Self as Seek>⟧ self.old offset result self.new }

        // It is one call of this type, as its `may` says, and not the seek of the trait's body.
        ensures own { LimitMaySeek T.Seek self.old (Moved offset result) self.new }
    {
        let at = self.target_within(SeekFrom::Current(offset))?;
        self.step(offset, at)
    }
}
