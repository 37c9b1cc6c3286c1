//! [`FrameReader`], which reads frames. A fault loses no frame, and no frame is given twice.
ghost use Rattle.std.specs.Prelude.{◌≡◌, ◌+◌, ◌<◌, ◌≤◌, ◌^◌, ℕ, List, [], ◌++◌, All, true, take, drop, length, Ok, IfOk, IfSome, IfNone};
ghost use Rattle.std.specs.Prelude.{IsSomeAnd};
ghost use Rattle.no_std_io2.specs.{Events.{event_bytes}, Takes.{to_come, tells}, Moves.{WriterState}, BufReader.{reader_held}};
ghost use Rattle.framing.specs.{Frames.{frame, HasHeader}, Places.{IsPlace, IsPlace-prop}};
ghost use Rattle.framing.specs.declared.reader.Place.TheVariants.{Between, Inside};

pub(crate) mod parts;

use no_std_io2::io::{BufRead, BufReader, Read, Result};
use parts::{HEADER, ended_inside, no_room, told_len};

/// A reader of frames, with a buffer of `S` bytes in front of any reader.
///
/// A frame of at most `S` bytes is gathered in the buffer, and taken whole. The payload of a longer one is read past
/// the buffer into the caller's room. If a fault comes inside it, the bytes before the fault are at the front of the
/// room, and the next call continues behind them. So after `Ok(None)` and after an error, the same call with the same
/// room may be made again, and no byte is lost.
///
/// ```rust
/// let wire = Cursor::new(*b"\x02\0\0\0ab\x01\0\0\0c");
/// let mut r = FrameReader::<_, 64>::new(wire);
/// let mut room = [0u8; 16];
/// assert!(rt; r.next(&mut room)? == Some(2));
/// assert!(rt; &room[..2] == b"ab".as_slice());
/// assert!(rt; r.next(&mut room)? == Some(1));
/// assert!(rt; r.next(&mut room)?.is_none());
/// assert!(rt; r.get_ref().position() == 11);
/// ```
#[derive(Drop)]
pub struct FrameReader<R, const S: usize> {
    inner: BufReader<R, S>,
    place: Place,
    ghost header_fits: { 4 ≤ S },
    ghost is_place: { IsPlace S place } by { IsPlace-prop S place },
}

// Where a reader of frames is.
#[derive(Clone, Copy)]
enum Place {
    // Before the header of the next frame: all bytes that were read of it are in the buffer.
    Between,
    // Behind the header of a frame that is longer than the buffer. Of its payload of `len` bytes, `given` are in the
    // caller's room.
    Inside { len: usize, given: usize },
}

impl<R: Read, const S: usize> FrameReader<R, S> {
    ghost use Rattle.framing.specs.Taking.{frame_reader, reads_from, seen_bytes, frame_to_come, frame_turns, SeesTo, TakesFrame};
    ghost use Rattle.framing.specs.Back.{AreToCome, GivesBack, WentOut};

    /// Makes a reader of the frames of `inner`. `S` is from 4 to 2^63 - 1.
    pub fn new(inner: R) -> FrameReader<R, S>
        requires header_fits { 4 ≤ S }
        requires in_memory { S < 2 ^ 63 }
        ensures inner { reads_from result ≡ inner }
        ensures empty { (room : List ℕ) → seen_bytes result room ≡ [] }
        ensures events { (room : List ℕ) → frame_to_come R.Read result room ≡ to_come (tells R.Read inner) }
    {
        FrameReader {
            inner: BufReader::new(inner),
            place: Place::Between,
        }
    }

    /// Gets a reference to the reader below, which is ahead by the bytes that were read and not yet given.
    pub fn get_ref(&self) -> &R
        ensures { result.now ≡ reads_from self.now }
    {
        self.inner.get_ref()
    }

    /// Gives the payload of the next frame into the front of `room`, and returns its length. Returns `None` if the
    /// bytes end after a whole frame. It ignores interruptions.
    ///
    /// It reads only while fewer bytes than the header's four are seen, and then, if the payload fits `room`, fewer
    /// than the frame's.
    ///
    /// # Errors
    /// Returns the first fault of the reader below; the next call continues after it. Returns `UnexpectedEof` if
    /// the bytes end inside a frame. Returns `InvalidInput` if the payload is longer than `room`; no read is made
    /// for it once its header is seen. After each of these errors the frame is still to come, with all its bytes,
    /// if the next call gets the same room, or a longer one that begins with the same bytes. The room behind the
    /// payload is unchanged, and so is the whole room after an error, unless the frame is longer than the buffer.
    /// Never returns `Interrupted`.
    pub fn next(&mut self, room: &mut [u8]) -> Result<Option<usize>>
        ensures takes { TakesFrame R.Read self.old room.old result self.new room.new }
        // If the frames of these payloads are told to come, they come back, one after another.
        ensures back { (sent : List (List ℕ)) → AreToCome sent (frame_to_come R.Read self.old room.old)
            → All (λ p. length p < 2 ^ 32) sent → GivesBack (length room.old) sent (frame_to_come R.Read self.old room.old) result room.new
            (frame_to_come R.Read self.new room.new) }
        // So do those that a writer of frames sent.
        ensures round { (old new : WriterState) (sent : List (List ℕ))
            → IsSomeAnd (frame_to_come R.Read self.old room.old) (λ E. WentOut old sent new (event_bytes E))
            → All (λ p. length p < 2 ^ 32) sent → GivesBack (length room.old) sent (frame_to_come R.Read self.old room.old) result room.new
            (frame_to_come R.Read self.new room.new) }
        ensures within { IfOk result (λ o. IfSome o (λ n. n ≤ length room.new)) }
        ensures spends_turn { IfOk result (λ o. IfSome o (λ _. frame_turns R.turns self.new < frame_turns R.turns self.old)) }
    {
        if let Place::Between = self.place {
            if let Some(len) = self.give_held(room) {
                return Ok(Some(len));
            }
        }
        self.take_next(room)
    }

    // Gives the next payload if its frame is held and it fits: the hot path of `next`.
    #[inline(always)]
    fn give_held(&mut self, room: &mut [u8]) -> Option<usize>
        requires between { self.old.place ≡ Between }
        ensures gives { IfSome result (λ n. (seen_bytes self.old room.old ≡ frame (take n room.new) ++ seen_bytes self.new room.new)
            × (n ≤ length room.old) × (n < 2 ^ 32)) }
        ensures behind { IfSome result (λ n. drop n room.new ≡ drop n room.old) }
        ensures within { IfSome result (λ n. n ≤ length room.new) }
        ensures inner { IfSome result (λ n. reads_from self.new ≡ reads_from self.old) }
        ensures spends_turn { IfSome result (λ n. frame_turns R.turns self.new < frame_turns R.turns self.old) }
        ensures none { IfNone result ((self.new ≡ self.old) × (room.new ≡ room.old)) }
    {
        let held = self.inner.buffer();
        if held.len() < HEADER {
            return None;
        }
        let len = told_len(held);
        if len > room.len() || held.len() - HEADER < len {
            return None;
        }
        self.give(len, room);
        Some(len)
    }

    // Gives a payload of this length, whose frame is held.
    #[inline(always)]
    fn give(&mut self, len: usize, room: &mut [u8])
        requires between { self.old.place ≡ Between }
        requires header { HasHeader len (reader_held (frame_reader self.old)) }
        requires held { 4 + len ≤ length (reader_held (frame_reader self.old)) }
        requires fits { len ≤ length room.old }
        ensures gives { seen_bytes self.old room.old ≡ frame (take len room.new) ++ seen_bytes self.new room.new }
        ensures behind { drop len room.new ≡ drop len room.old }
        ensures inner { reads_from self.new ≡ reads_from self.old }
        ensures long { length room.new ≡ length room.old }
        ensures spends_turn { frame_turns R.turns self.new < frame_turns R.turns self.old }
    {
        let held = self.inner.buffer();
        room[..len].copy_from_slice(&held[HEADER..HEADER + len]);
        self.inner.consume(HEADER + len);
    }

    // Takes the next frame, or the rest of a begun one: the cold path of `next`.
    #[cold]
    #[inline(never)]
    fn take_next(&mut self, room: &mut [u8]) -> Result<Option<usize>>
        ensures takes { TakesFrame R.Read self.old room.old result self.new room.new }
        ensures within { IfOk result (λ o. IfSome o (λ n. n ≤ length room.new)) }
        ensures spends_turn { IfOk result (λ o. IfSome o (λ _. frame_turns R.turns self.new < frame_turns R.turns self.old)) }
    {
        match self.place {
            Place::Between => self.take_first(room),
            Place::Inside { len, given } => self.take_long(len, given, room),
        }
    }

    // Takes the next frame, from its header on.
    fn take_first(&mut self, room: &mut [u8]) -> Result<Option<usize>>
        requires between { self.old.place ≡ Between }
        ensures takes { TakesFrame R.Read self.old room.old result self.new room.new }
        ensures within { IfOk result (λ o. IfSome o (λ n. n ≤ length room.new)) }
        ensures spends_turn { IfOk result (λ o. IfSome o (λ _. frame_turns R.turns self.new < frame_turns R.turns self.old)) }
    {
        if !self.see_held(HEADER)? {
            if self.inner.buffer().is_empty() {
                return Ok(None);
            }
            return Err(ended_inside());
        }
        let len = told_len(self.inner.buffer());
        if len <= S - HEADER {
            return self.take_short(len, room);
        }
        self.begin_long(len);
        self.take_long(len, 0, room)
    }

    // Takes a frame that fits the buffer. Its header is held, and says a payload of this length.
    fn take_short(&mut self, len: usize, room: &mut [u8]) -> Result<Option<usize>>
        requires between { self.old.place ≡ Between }
        requires header { HasHeader len (reader_held (frame_reader self.old)) }
        requires short { 4 + len ≤ S }
        requires small { len < 2 ^ 32 }
        ensures takes { TakesFrame R.Read self.old room.old result self.new room.new }
        ensures within { IfOk result (λ o. IfSome o (λ n. n ≤ length room.new)) }
        ensures spends_turn { IfOk result (λ o. IfSome o (λ _. frame_turns R.turns self.new < frame_turns R.turns self.old)) }
    {
        if len > room.len() {
            return Err(no_room());
        }
        if !self.see_held(HEADER + len)? {
            return Err(ended_inside());
        }
        self.give(len, room);
        Ok(Some(len))
    }

    // Takes the rest of a frame that is longer than the buffer, and is begun.
    #[cold]
    #[inline(never)]
    fn take_long(&mut self, len: usize, given: usize, room: &mut [u8]) -> Result<Option<usize>>
        requires inside { self.old.place ≡ Inside len given }
        ensures takes { TakesFrame R.Read self.old room.old result self.new room.new }
        ensures within { IfOk result (λ o. IfSome o (λ n. n ≤ length room.new)) }
        ensures spends_turn { IfOk result (λ o. IfSome o (λ _. frame_turns R.turns self.new < frame_turns R.turns self.old)) }
    {
        if len > room.len() {
            return Err(no_room());
        }
        if !self.see_payload(len, given, room)? {
            return Err(ended_inside());
        }
        self.place = Place::Between;
        Ok(Some(len))
    }

    // Reads until `n` bytes of the next frame are held. `false` means that the end came first.
    fn see_held(&mut self, n: usize) -> Result<bool>
        requires between { self.old.place ≡ Between }
        requires fits { n ≤ S }
        ensures sees { SeesTo R.Read S n (reads_from self.old) (reader_held (frame_reader self.old)) result (reads_from self.new)
            (reader_held (frame_reader self.new)) }
        ensures between { self.new.place ≡ Between }
        ensures turns_never_rise { frame_turns R.turns self.new ≤ frame_turns R.turns self.old }
    {
        self.inner.fill_to(n)
    }

    // Reads until the payload of a frame that is longer than the buffer is in the room, which it fits. `false` means that
    // the end came first.
    fn see_payload(&mut self, len: usize, given: usize, room: &mut [u8]) -> Result<bool>
        requires inside { self.old.place ≡ Inside len given }
        requires fits { len ≤ length room.old }
        ensures sees { SeesTo R.Read S (4 + len) (reads_from self.old) (seen_bytes self.old room.old) result (reads_from self.new)
            (seen_bytes self.new room.new) }
        ensures behind { drop len room.new ≡ drop len room.old }
        ensures whole { IfOk result (λ seen. seen ≡ true → self.new.place ≡ Inside len len) }
        ensures turns_never_rise { frame_turns R.turns self.new ≤ frame_turns R.turns self.old }
    {
        let mut filled = given;
        let read = self.inner.read_full(&mut room[..len], &mut filled);
        self.place = Place::Inside { len, given: filled };
        read?;
        Ok(filled >= len)
    }

    // Takes the header of a frame that is longer than the buffer. It is held, and the payload has this length.
    fn begin_long(&mut self, len: usize)
        requires between { self.old.place ≡ Between }
        requires header { HasHeader len (reader_held (frame_reader self.old)) }
        requires small { len < 2 ^ 32 }
        requires long { S < 4 + len }
        ensures inside { self.new.place ≡ Inside len 0 }
        ensures inner { reads_from self.new ≡ reads_from self.old }
        ensures seen { (room : List ℕ) → seen_bytes self.new room ≡ seen_bytes self.old room }
        ensures turns_never_rise { frame_turns R.turns self.new ≤ frame_turns R.turns self.old }
    {
        self.inner.consume(HEADER);
        self.place = Place::Inside { len, given: 0 };
    }
}
