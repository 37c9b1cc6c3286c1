//! The calls of [`BufWriter`] for records, which are written whole or not at all, and for bytes of a reader. Rust's std
//! has none of them.
ghost use Rattle.std.specs.Prelude.{◌≡◌, ◌+◌, ◌<◌, ◌≤◌, ◌++◌, [], length, OnOk};
ghost use Rattle.no_std_io2_base.specs.Errors.{IsNoInterruption};
ghost use Rattle.no_std_io2_base.specs.Moves.{Moves, call_mishap};
ghost use Rattle.no_std_io2.specs.BufWriter.{writer_inner, writer_buffer, writer_told, Puts, FillsFrom};
ghost use Rattle.no_std_io2.specs.inner.BufWriter.{TakesStep, RoomCalls};

use super::super::buffer::SMALL;
use super::BufWriter;
use no_std_io2_base::error::Result;
use no_std_io2_base::traits::{Read, Write};

impl<W: Write + Drop, const S: usize> BufWriter<W, S> {
    /// Sends the held bytes if `n` more do not fit beside them. After `Ok` they fit, if `n` is at most
    /// `S`. `make_room(S)` sends all held bytes.
    ///
    /// # Errors
    /// Returns `WriteZero` if an inner write takes no byte, and the inner writer's fault if one fails.
    /// Bytes that were not sent are still held. Never returns `Interrupted`.
    // Inlined: the test of the room is all of it if there is room.
    #[inline(always)]
    pub fn make_room(&mut self, n: usize) -> Result<()>
        ensures calls { TakesStep W.Write writer_inner writer_buffer (RoomCalls S n) self.old result self.new }
        ensures moves { Moves (writer_told W.told self.old) [] (call_mishap result) (writer_told W.told self.new) }
        ensures never_interrupted { IsNoInterruption result }
        ensures room { n ≤ S → OnOk result (length (writer_buffer self.new) + n ≤ S) }
    {
        self.sender.make_room(n)
    }

    /// Writes a record, `head` followed by `tail`, which has to be shorter than `S`. After `Ok` all of it
    /// was accepted, and is held. The held bytes are sent first if it does not fit beside them. The inner
    /// calls are those of a `write_all`: that passes `S` bytes or more on, and a fault could cut them.
    ///
    /// # Errors
    /// Returns the errors that [`make_room`](BufWriter::make_room) returns. Nothing of the record was then accepted.
    ///
    /// ```rust
    /// let mut w = BufWriter::<Vec<u8>, 8>::new(Vec::new(rt.alloc()));
    /// w.write_whole(b"abc", b"def")?;
    /// w.write_whole(b"gh", b"i")?; // does not fit beside them: they are sent first
    /// assert!(rt; w.get_ref().as_slice() == b"abcdef".as_slice());
    /// assert!(rt; w.buffer() == b"ghi".as_slice());
    /// w.make_room(5)?; // five more fit beside the three
    /// assert!(rt; w.buffer() == b"ghi".as_slice());
    /// w.make_room(6)?; // six do not
    /// assert!(rt; w.get_ref().as_slice() == b"abcdefghi".as_slice());
    /// ```
    // Inlined, as `make_room` is: a frame or a line of a log is two short parts, and a call would cost as much again.
    #[inline(always)]
    pub fn write_whole(&mut self, head: &[u8], tail: &[u8]) -> Result<()>
        requires { length head.now + length tail.now < S }
        ensures puts { Puts W.Write writer_inner writer_buffer S (head.now ++ tail.now) self.old result self.new }
    {
        if S <= SMALL {
            return self.write_whole_cold(head, tail);
        }
        if self.sender.hold_both_if_room(head, tail) {
            return Ok(());
        }
        self.write_whole_cold(head, tail)
    }

    // The whole of `write_whole`.
    #[cold]
    #[inline(never)]
    fn write_whole_cold(&mut self, head: &[u8], tail: &[u8]) -> Result<()>
        requires { length head.now + length tail.now < S }
        ensures puts { Puts W.Write writer_inner writer_buffer S (head.now ++ tail.now) self.old result self.new }
    {
        self.make_room(head.len() + tail.len())?;
        self.sender.hold(head);
        self.sender.hold(tail);
        Ok(())
    }

    /// Reads `from` into the room beside the held bytes, until `n` more are held or the end comes first. For the
    /// room, call [`make_room`](BufWriter::make_room) before. Each read asks for all that is missing, and the inner
    /// writer gets no call. It ignores interruptions.
    ///
    /// # Errors
    /// Returns the first fault of `from`. The bytes that were read before it are held. Never returns `Interrupted`.
    ///
    /// ```rust
    /// let mut w = BufWriter::<Vec<u8>, 8>::new(Vec::new(rt.alloc()));
    /// let mut from = b"abcdef".as_slice();
    /// w.make_room(4)?;
    /// w.fill_from(&mut from, 4)?;
    /// assert!(rt; w.buffer() == b"abcd".as_slice());
    /// assert!(rt; from == b"ef".as_slice());
    /// ```
    pub fn fill_from<R: Read>(&mut self, from: &mut R, n: usize) -> Result<()>
        requires { length (writer_buffer self.old) + n ≤ S }
        ensures fills { FillsFrom R.Read n from.old (writer_buffer self.old) result (writer_buffer self.new) from.new }
        ensures inner { writer_inner self.new ≡ writer_inner self.old }
    {
        self.sender.fill_from(from, n)
    }
}
