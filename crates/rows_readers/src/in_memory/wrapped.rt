// A slice in a type without a lifetime, and a buffer of 4 bytes in one without a parameter: the checker refuses boxed
// objects of their own types (`the borrow checker does not cover this function yet: a trait object needs
// the block ..`).
ghost use Rattle.no_std_io2.specs.Calls.{PartMay};
ghost use Rattle.std.specs.Prelude.{length};

use no_std_io2::io::{BufRead, BufReader, Cursor, Read, Result, Stored};

#[derive(Drop)]
pub struct Slice {
    pub bytes: &'static [u8],
}

impl Stored for Slice {}

impl Read for Slice {
    ghost turns = { λ s. length s.bytes.now };

    fn read(&mut self, buf: &mut [u8]) -> Result<usize> {
        self.bytes.read(buf)
    }
}

#[derive(Drop)]
pub struct Held {
    pub reader: BufReader<Cursor<Vec<u8>>, 4>,
}

impl Stored for Held {
    ghost store = { λ h. ⟦<BufReader<Cursor<Vec<u8>>, 4> as Stored>⟧.store h.reader };
}

impl Read for Held {
    ghost turns = { λ h. ⟦<BufReader<Cursor<Vec<u8>>, 4> as Read>⟧.turns h.reader };

    ghost events = { λ h. ⟦<BufReader<Cursor<Vec<u8>>, 4> as Read>⟧.events h.reader };

    ghost may = { PartMay ⟦<BufReader<Cursor<Vec<u8>>, 4> as Read>⟧.may (λ h. h.reader) (λ h s. record h { reader = s }) };

    ghost held = { λ h. ⟦<BufReader<Cursor<Vec<u8>>, 4> as Read>⟧.held h.reader };

    fn read(&mut self, buf: &mut [u8]) -> Result<usize> {
        self.reader.read(buf)
    }
}

impl BufRead for Held {
    fn fill_buf(&mut self) -> Result<&[u8]> {
        self.reader.fill_buf()
    }

    fn consume(&mut self, amount: usize) {
        self.reader.consume(amount);
    }
}
