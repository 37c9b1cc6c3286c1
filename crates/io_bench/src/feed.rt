// [`Feed`], a reader that gives the events of a list.
ghost use Rattle.std.specs.Prelude.{◌≡◌, ◌<◌, ◌≤◌, ◌∷◌, [], Some, MatchOption, length, take, drop, vec_len};

use no_std_io2::io::{Error, ErrorKind, Read, Result, Stored};

/// One thing that a [`Feed`] gives: a byte or a failure.
#[derive(Clone, Copy, Debug, PartialEq, Eq)]
pub enum Event {
    /// A byte.
    Byte(u8),
    /// A read returns an error of this kind.
    Fail(ErrorKind),
}

/// A reader that gives the events of a list in order, with a maximum number of bytes per read.
///
/// If the next event is a byte, a read gives the bytes up to the next failure, as many as the
/// maximum and the buffer allow. If it is a failure, a read returns that error. A read into an
/// empty buffer takes nothing.
#[derive(Debug, Drop)]
pub struct Feed {
    events: Vec<Event>,
    at: usize,
    piece: usize,
    ghost within: { at ≤ vec_len events },
    ghost some: { 0 < piece },
}

impl Feed {
    ghost use Rattle.io_bench.specs.Feed.{feed_left, feed_piece, feed_gives, leading_bytes, first_failure};

    /// Makes a reader that gives these events, in order, with at most `piece` bytes per read.
    /// `piece` is above 0.
    pub fn new(events: Vec<Event>, piece: usize) -> Feed
        requires { 0 < piece }
        ensures left { feed_left result ≡ events.items }
        ensures piece { feed_piece result ≡ piece }
    {
        Feed {
            events,
            at: 0,
            piece,
        }
    }

    /// Returns the events that are left.
    pub fn left(&self) -> &[Event]
        ensures { result.now ≡ feed_left self.now }
    {
        &self.events[self.at..]
    }

    // Takes the first event if it is a byte.
    fn take_byte(&mut self) -> Option<u8>
        ensures byte { MatchOption result
            ((leading_bytes (feed_left self.old) ≡ []) × (feed_left self.new ≡ feed_left self.old))
            (λ b. feed_left self.old ≡ Event.Byte b ∷ feed_left self.new) }
        ensures piece { feed_piece self.new ≡ feed_piece self.old }
    {
        if self.at == self.events.len() {
            return None;
        }
        match self.events[self.at] {
            Event::Byte(byte) => {
                self.at += 1;
                Some(byte)
            }
            Event::Fail(_) => None,
        }
    }

    // Takes the first event if it is a failure.
    fn take_failure(&mut self) -> Option<ErrorKind>
        ensures kind { result ≡ first_failure (feed_left self.old) }
        ensures left { MatchOption result (feed_left self.new ≡ feed_left self.old)
            (λ kind. feed_left self.old ≡ Event.Fail kind ∷ feed_left self.new) }
        ensures piece { feed_piece self.new ≡ feed_piece self.old }
    {
        if self.at == self.events.len() {
            return None;
        }
        match self.events[self.at] {
            Event::Byte(_) => None,
            Event::Fail(kind) => {
                self.at += 1;
                Some(kind)
            }
        }
    }

    // Gives the bytes at the front of the events, and returns their number.
    fn give(&mut self, buf: &mut [u8]) -> usize
        ensures count { result ≡ feed_gives self.old (length buf.old) }
        ensures bytes { take result buf.new ≡ take result (leading_bytes (feed_left self.old)) }
        ensures left { feed_left self.new ≡ drop result (feed_left self.old) }
        ensures piece { feed_piece self.new ≡ feed_piece self.old }
    {
        let most = self.piece.min(buf.len());
        let mut n = 0;
        'bytes: while n < most {
            match self.take_byte() {
                Some(byte) => {
                    buf[n] = byte;
                    n += 1;
                }
                None => return n,
            }
        }
        n
    }
}

/// Tells no store.
impl Stored for Feed {}

/// Tells the events that are left. Each byte and each failure is a turn.
impl Read for Feed {
    ghost use Rattle.io_bench.specs.Feed.{feed_left, all_to_come, FeedMay};

    ghost turns = { λ f. length (feed_left f) };

    ghost events = { λ f. Some (all_to_come (feed_left f)) };

    ghost may = { FeedMay };

    fn read(&mut self, buf: &mut [u8]) -> Result<usize> {
        if buf.is_empty() {
            return Ok(0);
        }
        match self.take_failure() {
            Some(kind) => Err(Error::from(kind)),
            None => Ok(self.give(buf)),
        }
    }
}
