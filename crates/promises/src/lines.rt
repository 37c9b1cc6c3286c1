// What a `LineWriter` holds.
ghost use Rattle.std.specs.Prelude.{OnOk};
ghost use Rattle.no_std_io2.specs.{inner.{Lines.{IsLineState}, Pieces.{Lacks}}, Pieces.{newline}, Moves.{Moves, MovesFront}};
ghost use Rattle.no_std_io2.specs.{Write.{accepted_of, write_mishap}, LineWriter.{line_buffer}};
ghost use Rattle.promises.specs.Promises.{in_lines};

use no_std_io2::io::{LineWriter, Result, Write};

/// After `write_all` returns `Ok` every complete line has been passed on. Some first bytes of the text were accepted,
/// all of them after `Ok`, and an error is a mishap of the device.
pub fn holds_no_newline<W: Write + Drop, const S: usize>(
    w: &mut LineWriter<W, S>,
    x: &[u8],
) -> Result<()>
    ensures line { OnOk result (Lacks newline (line_buffer w.new)) }
    ensures moves { MovesFront (in_lines W.told w.old) x.now result (in_lines W.told w.new) }
{
    w.write_all(x)
}

/// The same holds in a box, if the call is made on the value in the box.
pub fn holds_no_newline_in_a_box<W: Write + Drop, const S: usize>(
    w: &mut Box<LineWriter<W, S>>,
    x: &[u8],
) -> Result<()>
    ensures line { OnOk result (Lacks newline (line_buffer w.new.value)) }
    ensures moves { MovesFront (in_lines W.told w.old.value) x.now result (in_lines W.told w.new.value) }
{
    w.as_mut().write_all(x)
}

/// After a `write`, also a failed one, the buffer of a `LineWriter` has no newline or ends in one. The bytes that the
/// result reports were accepted, and an error is a mishap of the device.
pub fn keeps_a_line_state<W: Write + Drop, const S: usize>(
    w: &mut LineWriter<W, S>,
    x: &[u8],
) -> Result<usize>
    ensures line { IsLineState (line_buffer w.new) }
    ensures moves { Moves (in_lines W.told w.old) (accepted_of result x.now) (write_mishap result x.now) (in_lines W.told w.new) }
{
    let result = w.write(x);
    let _held = w.buffer();
    result
}
