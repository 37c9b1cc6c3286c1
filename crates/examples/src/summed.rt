//! [`Summed`], an adaptor with a state of its own. Its promise holds through the trait's loops and through a buffer.
ghost use Rattle.std.specs.Prelude.{◌≡◌, ◌++◌, ◌+◌, ◌%◌, ◌^◌, sum, IfOk};
ghost use Rattle.no_std_io2.specs.{BufWriter.{writer_inner, writer_buffer}, Write.{CallAdds, RestAdds}};
ghost use Rattle.examples.specs.Summed.{summed_inner, summed_sum, Sums};

use no_std_io2::io::{BufWriter, Result, Write};

/// A writer with a checksum: the sum of the bytes that were accepted, modulo 2^64.
#[derive(Drop)]
pub struct Summed<W> {
    inner: W,
    sum: u64,
}

impl<W> Summed<W> {
    /// Puts a checksum in front of `inner`.
    pub fn new(inner: W) -> Summed<W>
        ensures inner { summed_inner result ≡ inner }
        ensures sum { summed_sum result ≡ 0 }
    {
        Summed { inner, sum: 0 }
    }
}

// Returns a sum with these bytes added.
pub(crate) fn add_all(start: u64, bytes: &[u8]) -> u64
    ensures { result % 2 ^ 64 ≡ (start + sum bytes.now) % 2 ^ 64 }
{
    let mut total = start;
    'bytes: for b in bytes {
        total = total.wrapping_add(*b as u64);
    }
    total
}

impl<W: Write> Write for Summed<W> {
    ghost told = { λ s. W.told (summed_inner s) };

    // Each call adds the bytes that it accepted.
    ghost may = { CallAdds Sums };

    fn write(&mut self, buf: &[u8]) -> Result<usize> {
        let n = self.inner.write(buf)?;
        self.sum = add_all(self.sum, &buf[..n]);
        Ok(n)
    }

    fn flush(&mut self) -> Result<()> {
        self.inner.flush()
    }
}

/// Writes the bytes of `rest` by the trait's loop. The bytes that are gone from `rest` are in the sum, also after
/// an error.
///
/// # Errors
/// Returns the inner writer's first fault, and `WriteZero` if it takes no byte. The same call then continues.
pub fn write_summed<W: Write>(w: &mut Summed<W>, rest: &mut &[u8]) -> Result<()>
    ensures { RestAdds Sums w.old rest.old.now result w.new rest.new.now }
{
    w.write_rest(rest)
}

/// Flushes a buffer in front of a checksum. The bytes that are no longer held are in the sum; after `Ok` these are
/// all bytes.
///
/// # Errors
/// Returns the errors that `write_summed` returns, and that of the inner `flush`. The same call then continues.
pub fn flush_summed<W: Write + Drop, const S: usize>(w: &mut BufWriter<Summed<W>, S>) -> Result<()>
    ensures { RestAdds Sums (writer_inner w.old) (writer_buffer w.old) result (writer_inner w.new) (writer_buffer w.new) }
{
    w.flush()
}

/// Appends `text` to `device` through a buffer in front of a checksum. Returns the vector, and the sum of the text
/// modulo 2^64.
///
/// # Errors
/// Returns `OutOfMemory` if the vector cannot grow.
pub fn save_summed(device: Vec<u8>, text: &[u8]) -> Result<(Vec<u8>, u64)>
    ensures saved { IfOk result (λ r. r.0.items ≡ device.items ++ text.now) }
    ensures summed { IfOk result (λ r. r.1 % 2 ^ 64 ≡ sum text.now % 2 ^ 64) }
{
    let mut w = BufWriter::<Summed<Vec<u8>>, 32>::new(Summed::new(device));
    w.write_all(text)?;
    w.flush()?;
    match w.into_inner() {
        Ok(summed) => {
            let total = summed.sum;
            Ok((summed.inner, total))
        }
        Err(e) => Err(e.into()),
    }
}
