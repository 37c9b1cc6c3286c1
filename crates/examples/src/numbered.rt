// [`Numbered`], a wrapper that passes each call on.
ghost use Rattle.no_std_io2.specs.Calls.{PartMay};

use no_std_io2::io::{Read, Result, Stored, Write};
use std::alloc::Allocator;

/// A stream with a number, for messages. It passes `write_all`, `read_exact` and `read_to_end` on too, so that the
/// stream's own bodies of these run.
#[derive(Drop)]
pub struct Numbered<T> {
    /// The number.
    pub number: u32,
    /// The stream.
    pub stream: T,
}

impl<W: Write> Write for Numbered<W> {
    ghost told = { λ n. W.told n.stream };

    ghost takes_all = { λ n. W.takes_all n.stream };

    ghost may = { PartMay W.may (λ n. n.stream) (λ n s. record n { stream = s }) };

    fn write(&mut self, buf: &[u8]) -> Result<usize> {
        self.stream.write(buf)
    }

    fn flush(&mut self) -> Result<()> {
        self.stream.flush()
    }

    #[tactic(auto, using(no_std_io2::proofs::ObjectRules::passes_on))]
    fn write_all(&mut self, buf: &[u8]) -> Result<()> {
        self.stream.write_all(buf)
    }
}

impl<R: Stored> Stored for Numbered<R> {
    ghost store = { λ n. R.store n.stream };
}

impl<R: Read> Read for Numbered<R> {
    ghost turns = { λ n. R.turns n.stream };

    ghost events = { λ n. R.events n.stream };

    ghost may = { PartMay R.may (λ n. n.stream) (λ n s. record n { stream = s }) };

    ghost held = { λ n. R.held n.stream };

    fn read(&mut self, buf: &mut [u8]) -> Result<usize> {
        self.stream.read(buf)
    }

    #[tactic(auto, using(no_std_io2::proofs::ObjectRules::passes_on))]
    fn read_exact(&mut self, buf: &mut [u8]) -> Result<()> {
        self.stream.read_exact(buf)
    }

    #[tactic(auto, using(no_std_io2::proofs::ObjectRules::passes_on))]
    fn read_to_end<A: Allocator>(&mut self, buf: &mut Vec<u8, A>) -> Result<usize> {
        self.stream.read_to_end(buf)
    }
}
