// [`Narrow`], a device that takes bytes.
ghost use Rattle.no_std_io2.specs.Moves.{told_out};

use no_std_io2::io::{Result, Write};

/// A device that takes bytes into a vector, at most `most` in each call.
#[derive(Drop)]
pub struct Narrow {
    /// The bytes that it took.
    pub taken: Vec<u8>,
    /// The most bytes that one call takes.
    pub most: usize,
}

impl Write for Narrow {
    // The bytes that it took are out, nothing is held, and no mishaps are told.
    ghost told = { λ d. told_out d.taken.items };

    fn write(&mut self, buf: &[u8]) -> Result<usize> {
        let n = buf.len().min(self.most);
        self.taken.extend_from_slice(&buf[..n])?;
        Ok(n)
    }

    fn flush(&mut self) -> Result<()> {
        Ok(())
    }
}
