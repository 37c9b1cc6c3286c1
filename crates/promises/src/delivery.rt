// What has reached the device.
ghost use Rattle.std.specs.Prelude.{◌≡◌, [], ◌∷◌, ◌++◌, OnOk, IfOk, IfErr};
ghost use Rattle.no_std_io2.specs.BufWriter.{writer_inner, writer_buffer};
ghost use Rattle.no_std_io2.specs.inner.{BufWriter.{into_inner_error_cause, into_inner_error_writer}, Moves.{HasSpent}, Writers.{CallOf}};
ghost use Rattle.no_std_io2.specs.{Calls.{Flushed}, Moves.{Moves, call_mishap}, Errors.{error_kind}, LineWriter.{line_inner, line_buffer}};
ghost use Rattle.promises.specs.Promises.{bytes_in, in_tower};

use no_std_io2::io::{BufWriter, IntoInnerError, LineWriter, Result, Write};

/// After `flush` returns `Ok` no writer holds a byte. The result is that of one call.
pub fn holds_nothing_after_a_flush<W: Write>(w: &mut W) -> Result<()>
    ensures empty { OnOk result ((W.told w.new).held ≡ []) }
    ensures call { CallOf W.Write w.old (Flushed result) w.new }
{
    w.flush()
}

/// After `flush` returns `Ok` each buffer of a tower is empty, and so is whatever the device itself holds back. No byte
/// is lost, and an error is a mishap of the device.
pub fn empties_a_tower<W: Write + Drop, const S: usize, const T: usize>(
    tower: &mut LineWriter<BufWriter<W, S>, T>,
) -> Result<()>
    ensures outer { OnOk result (line_buffer tower.new ≡ []) }
    ensures inner { OnOk result (writer_buffer (line_inner tower.new) ≡ []) }
    ensures device { OnOk result ((W.told (writer_inner (line_inner tower.new))).held ≡ []) }
    ensures moves { Moves (in_tower W.told tower.old) [] (call_mishap result) (in_tower W.told tower.new) }
{
    tower.flush()
}

/// `into_inner` returns the device with every accepted byte, or an error with the writer that still holds what was not
/// sent. The error is a mishap of the device.
pub fn hands_back_the_device<W: Write + Drop, const S: usize>(
    w: BufWriter<W, S>,
) -> std::result::Result<W, IntoInnerError<BufWriter<W, S>>>
    ensures sent { IfOk result (λ device. bytes_in (W.told device)
        ≡ bytes_in (W.told (writer_inner w)) ++ writer_buffer w) }
    ensures unsent { IfErr result (λ e. bytes_in (W.told (writer_inner (into_inner_error_writer e)))
        ++ writer_buffer (into_inner_error_writer e) ≡ bytes_in (W.told (writer_inner w)) ++ writer_buffer w) }
    ensures mishap { IfErr result (λ e. HasSpent (W.told (writer_inner w)).mishaps (error_kind (into_inner_error_cause e) ∷ [])
        (W.told (writer_inner (into_inner_error_writer e))).mishaps) }
{
    w.into_inner()
}
