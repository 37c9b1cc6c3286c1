// [`Tee`], a writer over two writers.
ghost use Rattle.std.specs.Prelude.{◌≡◌, []};
ghost use Rattle.no_std_io2.specs.{BufWriter.{writer_buffer, writer_inner}, Write.{CallAdds}};
ghost use Rattle.examples.specs.Tee.{BothAdd, first_of, second_of, tee_told};

use no_std_io2::io::{BufWriter, Result, Write};

/// A writer that writes each byte to two writers, with a buffer of `S` bytes in front of the second, more than 1.
///
/// Both have accepted the bytes that the tee accepted, and no others, if the buffer counts as a part of the second. So after
/// a fault of either, neither is ahead of the other, and the same call may be made again.
#[derive(Drop)]
pub struct Tee<A, B: Write + Drop, const S: usize> {
    first: A,
    second: BufWriter<B, S>,
}

impl<A, B: Write + Drop, const S: usize> Tee<A, B, S> {
    /// Makes a tee of two writers.
    pub fn new(first: A, second: B) -> Tee<A, B, S>
        ensures first { first_of result ≡ first }
        ensures second { writer_inner (second_of result) ≡ second }
        ensures empty { writer_buffer (second_of result) ≡ [] }
    {
        Tee {
            first,
            second: BufWriter::new(second),
        }
    }

    /// Gets a reference to the first writer.
    pub fn first(&self) -> &A
        ensures { result.now ≡ first_of self.now }
    {
        &self.first
    }

    /// Gets a reference to the second writer with its buffer.
    pub fn second(&self) -> &BufWriter<B, S>
        ensures { result.now ≡ second_of self.now }
    {
        &self.second
    }
}

impl<A: Write, B: Write + Drop, const S: usize> Write for Tee<A, B, S> {
    // What both have accepted is what the second has, with its buffer.
    ghost told = { tee_told A.told B.told };

    // Each call adds the bytes that it accepted to both.
    ghost may = { CallAdds (BothAdd A.told B.told) };

    // First room is made in the buffer of the second, which may fail. Then the first takes some bytes, and the buffer
    // takes these, without a call.
    fn write(&mut self, buf: &[u8]) -> Result<usize> {
        let most = buf.len().min(S.saturating_sub(1));
        self.second.make_room(most)?;
        let n = self.first.write(&buf[..most])?;
        if n == 0 {
            return Ok(0);
        }
        self.second.write_all(&buf[..n])?;
        Ok(n)
    }

    // Both are flushed, the second also if the first fails; the first's error is returned then.
    fn flush(&mut self) -> Result<()> {
        let first = self.first.flush();
        let second = self.second.flush();
        first?;
        second
    }
}
