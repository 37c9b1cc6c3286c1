//! [`write_reading`], [`send_reading`] and [`write_readings`], which print readings of an instrument straight to
//! a writer.
ghost use Rattle.std.specs.{Prelude.{◌≡◌, ◌⊎◌, [], IsErrAnd, OnOk}, List.{flat_map}};
ghost use Rattle.no_std_io2.specs.{Errors.{IsTextError}, Moves.{MovesFront}};
ghost use Rattle.examples.specs.Readings.{reading};

use no_std_io2::io::{Result, Write};

/// Writes `NAME=VALUE` and a newline. It allocates nothing.
///
/// # Errors
/// Returns the error of a `write_all` if that fails; some first bytes of the line were then accepted. Its
/// contract also allows that the printing fails.
pub fn write_reading<W: Write>(w: &mut W, name: &str, value: u32) -> Result<()>
    ensures line { MovesFront (W.told w.old) (reading name.now value) result (W.told w.new) ⊎ IsErrAnd result IsTextError }
{
    write!(w, "{name}={value}\n")
}

/// Writes `NAME=VALUE` and a newline, and flushes the writer. It allocates nothing.
///
/// # Errors
/// Returns the errors that [`write_reading`] returns, and the error of the flush if that fails; the whole line
/// was then accepted.
pub fn send_reading<W: Write>(w: &mut W, name: &str, value: u32) -> Result<()>
    ensures line { MovesFront (W.told w.old) (reading name.now value) result (W.told w.new) ⊎ IsErrAnd result IsTextError }
    ensures flushed { OnOk result ((W.told w.new).held ≡ []) }
{
    write!(w, "{name}={value}\n")?;
    w.flush()
}

/// Writes a line `NAME=VALUE` for each of these values. It allocates nothing.
///
/// # Errors
/// Returns the errors that [`write_reading`] returns; some first bytes of the lines were then accepted.
pub fn write_readings<W: Write>(w: &mut W, name: &str, values: &[u32]) -> Result<()>
    ensures lines { MovesFront (W.told w.old) (flat_map (reading name.now) values.now) result (W.told w.new)
        ⊎ IsErrAnd result IsTextError }
{
    'values: for value in values {
        write_reading(w, name, *value)?;
    }
    Ok(())
}
