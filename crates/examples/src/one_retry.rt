//! [`send_with_one_retry`], two calls over any device, of which the second continues the first.
ghost use Rattle.std.specs.Prelude.{◌≡◌, [], OnOk};
ghost use Rattle.no_std_io2.specs.{Retries.{Tries}, Moves.{Sends}, Writers.{WriteRestOf}};

use no_std_io2::io::{Result, Write};

/// Sends the rest of a text, and tries once more if the first try fails. No byte goes out twice.
///
/// # Errors
/// Returns the error of the second try. The bytes that are left in `rest` were not accepted, so the same
/// call continues.
pub fn send_with_one_retry<W: Write>(device: &mut W, rest: &mut &[u8]) -> Result<()>
    ensures sends { Sends (W.told device.old) rest.old.now result (W.told device.new) rest.new.now }
    ensures done { OnOk result (rest.new.now ≡ []) }
    ensures calls { Tries (WriteRestOf W.Write) 1 device.old rest.old.now result device.new rest.new.now }
{
    if device.write_rest(rest).is_ok() {
        return Ok(());
    }
    device.write_rest(rest)
}
