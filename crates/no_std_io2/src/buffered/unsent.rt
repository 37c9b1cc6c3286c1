//! [`Unsent`], the held bytes of a buffered writer that was taken apart.
ghost use Rattle.std.specs.Prelude.{◌≡◌};

use super::buffer::Buffer;

/// The bytes that a buffered writer held when [`BufWriter::into_parts`](super::BufWriter::into_parts) took it apart.
#[derive(Drop)]
pub struct Unsent<const S: usize> {
    pub(super) buffer: Buffer<S>,
}

impl<const S: usize> Unsent<S> {
    ghost use Rattle.no_std_io2.specs.inner.Buffer.{unsent_bytes};

    /// Returns the bytes that were held.
    pub fn as_slice(&self) -> &[u8]
        ensures { result.now ≡ unsent_bytes self.now }
    {
        self.buffer.as_slice()
    }
}
