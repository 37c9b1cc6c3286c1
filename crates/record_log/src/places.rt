// What several calls of a writer that puts its bytes at a place leave there.
ghost use Rattle.std.specs.{Prelude.{◌≡◌, ◌+◌, ◌≤◌, ◌<◌, ◌^◌, ◌++◌, ℕ, List, length, OnOk}, Int.{w32, to_le_bytes}};
ghost use Rattle.no_std_io2.specs.{Cursor.{cursor_inner, cursor_position}, Moves.{MovesFront}};
ghost use Rattle.record_log.specs.{Placed.{PutsAt}, Places.{TellsStore, HasRoom, HasPut, StandsAt}};

use no_std_io2::io::{AsSlice, Cursor, Read, Result, Seek, SeekFrom, Write, read_exact_at};

/// A cursor tells its content and its position as its store, as the functions below assume of a file.
///
/// ```rust
/// let mut c = Cursor::new(Vec::<u8>::new(rt.alloc()));
/// put_two(&mut c, b"a", b"b")?;
/// patch_length(&mut c, b"cd")?;
/// put_apart(&mut c, b"e", 10, b"f")?; // a zero is between them
/// let mut back = [0u8; 1];
/// read_back(&mut c, b"g", &mut back)?;
/// assert!(rt; back == *b"g");
/// assert!(rt; c.get_ref().as_slice() == b"ab\x02\0\0\0cde\0fg".as_slice());
/// ```
pub fn cursors_tell_places<T: AsSlice<u8>>(cursor: &Cursor<T>) -> u64
    ensures { TellsStore ⟦<Cursor<T> as Seek>⟧ (λ c. T.slice (cursor_inner c)) cursor_position }
{
    cursor.position()
}

/// Writes `first`, and then `second` behind it. That puts both, joined, at the place of the writer.
///
/// # Errors
/// Returns the error of the first `write_all` that fails.
pub fn put_two<W: Write>(writer: &mut W, first: &[u8], second: &[u8]) -> Result<()>
    ensures moves { MovesFront (W.told writer.old) (first.now ++ second.now) result (W.told writer.new) }
    ensures puts { (content : W → List ℕ) (place : W → ℕ) → PutsAt W.Write content place
        → OnOk result (HasPut (content writer.old) (place writer.old) (first.now ++ second.now)
        (content writer.new) (place writer.new)) }
    ensures appends { (content : W → List ℕ) (place : W → ℕ) → PutsAt W.Write content place
        → place writer.old ≡ length (content writer.old)
        → OnOk result (content writer.new ≡ content writer.old ++ (first.now ++ second.now)) }
{
    writer.write_all(first)?;
    writer.write_all(second)
}

/// Writes a message whose length is known only behind it: four bytes for the length, the message, and then the length
/// over the four bytes. Afterwards the file stands behind the message.
///
/// # Errors
/// Returns the error of the first call that fails. What is then at the old place is not known.
pub fn patch_length<W: Write + Seek>(file: &mut W, message: &[u8]) -> Result<()>
    requires short { length message.now < 2 ^ 32 }
    ensures { (content : W → List ℕ) (place : W → ℕ) → PutsAt W.Write content place → TellsStore W.Seek content place
        → HasRoom (content file.old) (place file.old) (4 + length message.now)
        → OnOk result (HasPut (content file.old) (place file.old) (to_le_bytes w32 (length message.now) ++ message.now)
        (content file.new) (place file.new)) }
{
    let start = file.stream_position()?;
    file.write_all(&[0; 4])?;
    file.write_all(message)?;
    let end = file.stream_position()?;
    file.seek(SeekFrom::Start(start))?;
    file.write_all(&(message.len() as u32).to_le_bytes())?;
    file.seek(SeekFrom::Start(end))?;
    Ok(())
}

/// Writes `bytes`, and reads as many back from where they are.
///
/// # Errors
/// Returns the error of the first call that fails.
pub fn read_back<F: Read + Write + Seek>(file: &mut F, bytes: &[u8], back: &mut [u8]) -> Result<()>
    requires as_many { length back.old ≡ length bytes.now }
    ensures { (content : F → List ℕ) (place : F → ℕ) → PutsAt F.Write content place → TellsStore F.Seek content place
        → HasRoom (content file.old) (place file.old) (length bytes.now)
        → OnOk result ((back.new ≡ bytes.now)
        × HasPut (content file.old) (place file.old) bytes.now (content file.new) (place file.new)) }
{
    let start = file.stream_position()?;
    file.write_all(bytes)?;
    read_exact_at(file, SeekFrom::Start(start), back)
}

/// Writes `first`, seeks to `at`, and writes `second`. If `at` is not before the end of `first`, both are then there.
///
/// # Errors
/// Returns the error of the first call that fails.
pub fn put_apart<W: Write + Seek>(file: &mut W, first: &[u8], at: u64, second: &[u8]) -> Result<()>
    ensures { (content : W → List ℕ) (place : W → ℕ) → PutsAt W.Write content place → TellsStore W.Seek content place
        → HasRoom (content file.old) (place file.old) (length first.now)
        → place file.old + length first.now ≤ at
        → OnOk result (StandsAt (place file.old) first.now (content file.new) × StandsAt at second.now (content file.new)) }
{
    file.write_all(first)?;
    file.seek(SeekFrom::Start(at))?;
    file.write_all(second)
}
