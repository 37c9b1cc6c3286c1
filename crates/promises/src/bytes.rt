// No accepted byte is lost, repeated or moved.
ghost use Rattle.std.specs.Prelude.{◌≡◌, List, [], ℕ, ◌++◌, IfErr, OnOk};
ghost use Rattle.no_std_io2.specs.{inner.{Write.{AllCalls}, Writers.{CallOf}}, Calls.{ByCalls, Flushed, Wrote}, Moves.{IsFront, Moves}};
ghost use Rattle.no_std_io2.specs.Write.{accepted_of, write_mishap};
ghost use Rattle.io_bench.specs.Tally.{tally_inner};
ghost use Rattle.promises.specs.Promises.{EndsIn, bytes_in, in_tower};

use io_bench::Tally;
use no_std_io2::io::{BufWriter, LineWriter, Result, Write};

/// A `write` adds exactly the bytes that its result reports, after all accepted bytes, and an error adds none. This
/// holds for every writer, so for every tower of buffers over every device. The result is that of one call.
pub fn keeps_every_byte<W: Write>(w: &mut W, x: &[u8]) -> Result<usize>
    ensures bytes { bytes_in (W.told w.new) ≡ bytes_in (W.told w.old) ++ accepted_of result x.now }
    ensures call { CallOf W.Write w.old (Wrote x.now result) w.new }
{
    w.write(x)
}

/// A `flush` neither adds nor loses a byte, also if it fails half way. The result is that of one call.
pub fn keeps_every_byte_of_a_flush<W: Write>(w: &mut W) -> Result<()>
    ensures bytes { bytes_in (W.told w.new) ≡ bytes_in (W.told w.old) }
    ensures call { CallOf W.Write w.old (Flushed result) w.new }
{
    w.flush()
}

/// A `write_all` adds some first bytes of its text, and all of them if it returns `Ok`. Its calls are those of one
/// `write_all`, and give its result.
pub fn keeps_every_byte_of_a_write_all<W: Write>(w: &mut W, x: &[u8]) -> Result<()>
    ensures bytes { (front : List ℕ) × IsFront front x.now × OnOk result (front ≡ x.now)
        × (bytes_in (W.told w.new) ≡ bytes_in (W.told w.old) ++ front) }
    ensures calls { ByCalls (CallOf W.Write) w.old (λ C. AllCalls C x.now result) w.new }
{
    w.write_all(x)
}

/// The bytes that the device has are never taken back, and no other byte comes before them. After `Ok` all accepted
/// bytes are out. An error is that of the last call.
pub fn keeps_what_is_out<W: Write>(w: &mut W, x: &[u8]) -> Result<()>
    ensures front { IsFront (W.told w.old).out (W.told w.new).out }
    ensures all { OnOk result ((W.told w.new).out ≡ bytes_in (W.told w.old) ++ x.now) }
    ensures calls { ByCalls (CallOf W.Write) w.old (λ C. IfErr result (EndsIn C)) w.new }
{
    w.write_all(x)?;
    w.flush()
}

/// In a tower the bytes of the device, of the inner buffer and of the outer one are all accepted bytes, in order. What
/// is out stays out, and the mishaps that the tower tells are those of the device.
pub fn keeps_every_byte_in_a_tower<W: Write + Drop, const S: usize, const T: usize>(
    w: &mut Box<LineWriter<BufWriter<Tally<W>, S>, T>>,
    x: &[u8],
) -> Result<usize>
    ensures { Moves (in_tower (λ t. W.told (tally_inner t)) w.old.value) (accepted_of result x.now) (write_mishap result x.now)
        (in_tower (λ t. W.told (tally_inner t)) w.new.value) }
{
    w.write(x)
}

/// After an error of `write_rest` the same call continues: both calls together accept exactly the bytes that are gone
/// from the front of the slice, once. After `Ok` the slice is empty. An error is that of the last call.
pub fn continues_with_the_rest<W: Write>(w: &mut W, rest: &mut &[u8]) -> Result<()>
    ensures bytes { (sent : List ℕ) × (rest.old.now ≡ sent ++ rest.new.now)
        × (bytes_in (W.told w.new) ≡ bytes_in (W.told w.old) ++ sent) }
    ensures all { OnOk result (rest.new.now ≡ []) }
    ensures calls { ByCalls (CallOf W.Write) w.old (λ C. IfErr result (EndsIn C)) w.new }
{
    if w.write_rest(rest).is_ok() {
        return Ok(());
    }
    w.write_rest(rest)
}
