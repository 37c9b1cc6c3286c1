// A disk whose power is cut, to try a log on.
ghost use Rattle.std.specs.Prelude.{◌≡◌, ◌+◌, ◌≤◌, ◌++◌, take, drop, length, vec_len};

use no_std_io2::io::{Error, ErrorKind, Result, Write};

/// A disk of a fixed size, to try a log on. It takes so many bytes more, and then its power is cut: the `write` that
/// goes past them leaves its first bytes there, and fails, as each call after it does.
#[derive(Drop)]
pub struct Disk {
    content: Vec<u8>,
    place: usize,
    left: usize,
    is_off: bool,
    ghost within: { place ≤ vec_len content },
}

impl Disk {
    ghost use Rattle.record_log.specs.Disk.{disk_content, disk_place};

    /// Makes a disk with this content. Writes begin at `place`, and `left` bytes fit before the cut.
    pub fn new(content: Vec<u8>, place: usize, left: usize) -> Disk
        requires { place ≤ vec_len content }
        ensures content { disk_content result ≡ content.items }
        ensures place { disk_place result ≡ place }
    {
        Disk {
            content,
            place,
            left,
            is_off: false,
        }
    }

    /// Returns the disk with its power back: writes begin at `place`, and `left` bytes fit before the next cut.
    pub fn restart(self, place: usize, left: usize) -> Disk
        requires { place ≤ length (disk_content self) }
        ensures content { disk_content result ≡ disk_content self }
        ensures place { disk_place result ≡ place }
    {
        Disk::new(self.content, place, left)
    }

    /// Returns the content, which is what is left after the cut.
    pub fn content(&self) -> &[u8]
        ensures { result.now ≡ disk_content self.now }
    {
        self.content.as_slice()
    }
}

// Puts x at a place.
fn put(content: &mut Vec<u8>, place: usize, x: &[u8])
    requires { place + length x.now ≤ vec_len content.old }
    ensures puts { content.new.items ≡ take place content.old.items ++ (x.now ++ drop (place + length x.now) content.old.items) }
    ensures fits { place + length x.now ≤ length content.old.items }
    ensures long { vec_len content.new ≡ vec_len content.old }
{
    let end = place + x.len();
    content[place..end].copy_from_slice(x);
}

impl Write for Disk {
    ghost use Rattle.no_std_io2.specs.Moves.{told_out};
    ghost use Rattle.record_log.specs.{Disk.{disk_content, disk_place}, Placed.{PutsCall}};

    ghost told = { λ d. told_out (take (disk_place d) (disk_content d)) };

    ghost may = { λ old call new. PutsCall (disk_content old) (disk_place old) call (disk_content new) (disk_place new) };

    #[tactic(auto, using(crate::proofs::DeviceLemmas::put_there, crate::proofs::DeviceLemmas::put_before))]
    fn write(&mut self, buf: &[u8]) -> Result<usize> {
        let place = self.place;
        let n = buf.len().min(self.content.len() - place);
        if n > self.left {
            let torn = self.left;
            put(&mut self.content, place, &buf[..torn]);
            self.left = 0;
            self.is_off = true;
            return Err(Error::from(ErrorKind::Other));
        }
        put(&mut self.content, place, &buf[..n]);
        self.place += n;
        self.left -= n;
        Ok(n)
    }

    fn flush(&mut self) -> Result<()> {
        if self.is_off {
            return Err(Error::from(ErrorKind::Other));
        }
        Ok(())
    }
}
