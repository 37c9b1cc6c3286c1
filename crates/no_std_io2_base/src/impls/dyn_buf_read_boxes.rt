// A boxed object of `BufRead` as the reader in it.
ghost use Rattle.no_std_io2_base.specs.inner.Calls.{BoxMay};

use super::dyn_read_to_end::{ReadObject, drain};
use super::vectors::append;
use crate::error::Result;
use crate::traits::{BufRead, Read, Stored, find_piece};
use std::alloc::Allocator;

impl<A: Allocator> Stored for Box<dyn BufRead + Drop, A> {
    ghost store = { λ b. (BufRead-box b).Stored.store b.value };
}

/// Passes each call on to the reader in the box.
impl<A: Allocator> Read for Box<dyn BufRead + Drop, A> {
    ghost turns = { λ b. (BufRead-box b).Read.turns b.value };

    ghost events = { λ b. (BufRead-box b).Read.events b.value };

    ghost may = { λ b call new. BoxMay b (BufRead-box b).Read.may call new };

    ghost held = { λ b. (BufRead-box b).Read.held b.value };

    fn read(&mut self, buf: &mut [u8]) -> Result<usize> {
        self.read_object(buf)
    }

    fn read_exact(&mut self, buf: &mut [u8]) -> Result<()> {
        (**self).read_exact(buf)
    }

    fn read_full(&mut self, buf: &mut [u8], filled: &mut usize) -> Result<()> {
        (**self).read_full(buf, filled)
    }

    fn read_to_end<B: Allocator>(&mut self, buf: &mut Vec<u8, B>) -> Result<usize> {
        drain(self, buf)
    }
}

impl<A: Allocator> BufRead for Box<dyn BufRead + Drop, A> {
    fn fill_buf(&mut self) -> Result<&[u8]> {
        (**self).fill_buf()
    }

    fn consume(&mut self, amount: usize) {
        (**self).consume(amount)
    }

    // The trait's body, written again, since it has a type parameter (`dyn_read_to_end.rt` says more).
    fn read_until<B: Allocator>(&mut self, delim: u8, buf: &mut Vec<u8, B>) -> Result<usize> {
        let start = buf.len();
        'pieces: loop {
            match self.fill_buf() {
                Ok(lent) => {
                    let (len, is_whole) = find_piece(lent, delim);
                    append(buf, &lent[..len])?;
                    self.consume(len);
                    if is_whole {
                        return Ok(buf.len() - start);
                    }
                }
                Err(e) if e.is_interrupted() => {}
                Err(e) => return Err(e),
            }
        }
    }
}

impl<A: Allocator> ReadObject for Box<dyn BufRead + Drop, A> {
    ghost reader = { record {
      store = λ b. (BufRead-box b).Stored.store b.value;
      turns = λ b. (BufRead-box b).Read.turns b.value;
      events = λ b. (BufRead-box b).Read.events b.value;
      may = λ b call new. BoxMay b (BufRead-box b).Read.may call new;
      held = λ b. (BufRead-box b).Read.held b.value;
    } };

    fn read_object(&mut self, buf: &mut [u8]) -> Result<usize> {
        (**self).read(buf)
    }
}
