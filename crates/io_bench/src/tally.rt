// [`Tally`], a stream that counts its calls.
ghost use Rattle.std.specs.Prelude.{◌≡◌, ◌+◌, ◌^◌, ◌-◌, length, min};

use no_std_io2::ghost_bytes::GhostBytes;
use no_std_io2::io::{Read, Result, Stored, Write};
use std::fmt;

/// Passes each call on to an inner stream, and counts each `write`, and each `read` into a buffer
/// that is not empty, whatever they return.
///
/// Only contracts see the exact counts. The numbers that [`writes`](Tally::writes) and
/// [`reads`](Tally::reads) return stay at `u64::MAX` once they reach it.
#[derive(Drop)]
pub struct Tally<T> {
    inner: T,
    write_calls: GhostBytes,
    read_calls: GhostBytes,
    writes: u64,
    reads: u64,
    ghost writes_counted: { writes ≡ min (length write_calls.bytes) (2 ^ 64 - 1) },
    ghost reads_counted: { reads ≡ min (length read_calls.bytes) (2 ^ 64 - 1) },
}

impl<T> Tally<T> {
    ghost use Rattle.io_bench.specs.Tally.{tally_inner, tally_writes, tally_reads};

    /// Puts counters in front of `inner`, which start at 0.
    pub fn new(inner: T) -> Tally<T>
        ensures inner { tally_inner result ≡ inner }
        ensures writes { tally_writes result ≡ 0 }
        ensures reads { tally_reads result ≡ 0 }
    {
        Tally {
            inner,
            write_calls: GhostBytes::new(),
            read_calls: GhostBytes::new(),
            writes: 0,
            reads: 0,
        }
    }

    /// Gets a reference to the inner stream.
    pub fn get_ref(&self) -> &T
        ensures { result.now ≡ tally_inner self.now }
    {
        &self.inner
    }

    /// Returns the number of `write` calls. It stays at `u64::MAX` once it reaches that.
    pub fn writes(&self) -> u64
        ensures { result ≡ min (tally_writes self.now) (2 ^ 64 - 1) }
    {
        self.writes
    }

    /// Returns the number of `read` calls into a buffer that was not empty. It stays at `u64::MAX`
    /// once it reaches that.
    pub fn reads(&self) -> u64
        ensures { result ≡ min (tally_reads self.now) (2 ^ 64 - 1) }
    {
        self.reads
    }

    /// Returns the inner stream. The counts are lost.
    pub fn into_inner(self) -> T
        ensures { result ≡ tally_inner self }
    {
        self.inner
    }

    // Counts one more `write`.
    fn count_write(&mut self)
        ensures inner { tally_inner self.new ≡ tally_inner self.old }
        ensures writes { tally_writes self.new ≡ tally_writes self.old + 1 }
        ensures reads { tally_reads self.new ≡ tally_reads self.old }
    {
        self.write_calls.add(&[0]);
        self.writes = self.writes.saturating_add(1);
    }

    // Counts one more `read`.
    fn count_read(&mut self)
        ensures inner { tally_inner self.new ≡ tally_inner self.old }
        ensures writes { tally_writes self.new ≡ tally_writes self.old }
        ensures reads { tally_reads self.new ≡ tally_reads self.old + 1 }
    {
        self.read_calls.add(&[0]);
        self.reads = self.reads.saturating_add(1);
    }
}

/// Tells what the inner writer tells. Its exact count is a meter of its calls. Each call makes the same call of the
/// inner writer, once, and returns its result. `write_all` and `write_rest` have the trait's bodies, so each of
/// their writes counts.
impl<T: Write> Write for Tally<T> {
    ghost use Rattle.io_bench.specs.Tally.{tally_inner, TallyMay};

    ghost told = { λ t. T.told (tally_inner t) };

    ghost takes_all = { λ t. T.takes_all (tally_inner t) };

    ghost may = { TallyMay T.Write };

    fn write(&mut self, buf: &[u8]) -> Result<usize> {
        self.count_write();
        self.inner.write(buf)
    }

    fn flush(&mut self) -> Result<()> {
        self.inner.flush()
    }
}

/// Tells the inner stream's store.
impl<T: Stored> Stored for Tally<T> {
    ghost use Rattle.io_bench.specs.Tally.{tally_inner};

    ghost store = { λ t. T.store (tally_inner t) };
}

/// Tells what the inner reader tells. Its exact count is a meter of its reads. `read_exact` and `read_to_end`
/// have the trait's bodies, so each of their reads counts.
impl<T: Read> Read for Tally<T> {
    ghost use Rattle.io_bench.specs.Tally.{tally_inner, ReadsCounted};

    ghost turns = { λ t. T.turns (tally_inner t) };

    ghost events = { λ t. T.events (tally_inner t) };

    ghost may = { ReadsCounted T.Read };

    fn read(&mut self, buf: &mut [u8]) -> Result<usize> {
        if !buf.is_empty() {
            self.count_read();
        }
        self.inner.read(buf)
    }
}

impl<T: fmt::Debug> fmt::Debug for Tally<T> {
    fn fmt<W: fmt::Write>(&self, f: &mut fmt::Formatter<W>) -> fmt::Result {
        f.debug_struct("Tally")
            .field("inner", &self.inner)
            .field("writes", &self.writes)
            .field("reads", &self.reads)
            .finish()
    }
}
