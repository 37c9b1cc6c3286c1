//! [`Queue`], bytes that C keeps between two calls.
ghost use Rattle.std.specs.Prelude.{◌≡◌, [], ◌-◌, ◌++◌, length, min, take, drop};
ghost use Rattle.no_std_io2.specs.Moves.{told_out};
ghost use Rattle.bare.specs.Queue.{waiting, queue_capacity, QueueMay};

use no_std_io2::io::{Error, ErrorKind, Result, Write};

// How many bytes a queue has room for.
pub(crate) const CAPACITY: usize = 64;

/// Bytes that wait, in order: the first `len` of `bytes`. An interrupt handler empties the queue of a port that sends,
/// and fills that of a port that receives, by [`bare_take`] and [`bare_put`].
///
/// As a writer it takes as many bytes as it has room for, and is `WouldBlock` once it is full.
#[repr(C)]
#[derive(Clone, Copy)]
pub struct Queue {
    /// The bytes, and behind them what stood there before.
    pub bytes: [u8; 64],
    /// How many bytes wait.
    pub len: usize,
}

impl Queue {
    /// Returns a queue in which no byte waits.
    pub(crate) fn new() -> Queue
        ensures { waiting result ≡ [] }
    {
        Queue {
            bytes: [0; 64],
            len: 0,
        }
    }

    /// Returns the bytes that wait.
    pub fn waiting(&self) -> &[u8]
        ensures { result.now ≡ waiting self.now }
    {
        &self.bytes[..self.len.min(CAPACITY)]
    }

    /// Removes the first `n` bytes that wait, or all if there are fewer.
    #[inline(never)]
    #[tactic(auto, using(crate::proofs::QueueLemmas::take_moved))]
    pub fn advance(&mut self, n: usize)
        ensures { waiting self.new ≡ drop n (waiting self.old) }
    {
        let end = self.len.min(CAPACITY);
        let start = n.min(end);
        // A copy from or to an array on the stack is a call of `memcpy`, since LLVM knows that nothing overlaps it. Any
        // other is a test, a call and loops.
        let bytes = self.bytes;
        self.bytes[..end - start].copy_from_slice(&bytes[start..end]);
        self.len = end - start;
    }
}

impl Write for Queue {
    ghost told = { λ q. told_out (waiting q) };

    ghost may = { QueueMay };

    #[inline(never)]
    fn write(&mut self, buf: &[u8]) -> Result<usize> {
        let n = bare_put(self, buf);
        if n == 0 && !buf.is_empty() {
            return Err(Error::from(ErrorKind::WouldBlock));
        }
        Ok(n)
    }

    fn flush(&mut self) -> Result<()> {
        Ok(())
    }

    // That of every writer, but not inlined: each buffer in front of a queue calls it.
    #[inline(never)]
    fn write_all(&mut self, buf: &[u8]) -> Result<()> {
        let mut rest = buf;
        self.write_rest(&mut rest)
    }
}

/// Puts the first of these bytes behind those that wait, as many as fit, and returns how many they are.
#[inline(never)]
#[unsafe(no_mangle)]
pub extern "C" fn bare_put(queue: &mut Queue, bytes: &[u8]) -> usize
    ensures count { result ≡ min (length bytes.now) (queue_capacity - length (waiting queue.old)) }
    ensures puts { waiting queue.new ≡ waiting queue.old ++ take result bytes.now }
{
    let start = queue.len.min(CAPACITY);
    let n = bytes.len().min(CAPACITY - start);
    let mut all = queue.bytes;
    all[start..start + n].copy_from_slice(&bytes[..n]);
    queue.bytes = all;
    queue.len = start + n;
    n
}

/// Moves the first bytes that wait into `room`, as many as fit, and returns how many they are.
#[unsafe(no_mangle)]
pub extern "C" fn bare_take(queue: &mut Queue, room: &mut [u8]) -> usize
    ensures count { result ≡ min (length (waiting queue.old)) (length room.old) }
    ensures gives { room.new ≡ take result (waiting queue.old) ++ drop result room.old }
    ensures takes { waiting queue.new ≡ drop result (waiting queue.old) }
{
    let n = queue.waiting().len().min(room.len());
    let bytes = queue.bytes;
    room[..n].copy_from_slice(&bytes[..n]);
    queue.advance(n);
    n
}
