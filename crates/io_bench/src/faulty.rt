// [`Faulty`], a writer that fails as its list of acts says.
ghost use Rattle.no_std_io2.specs.Writers.{TakesAll};
ghost use Rattle.std.specs.Prelude.{◌≡◌, ◌≤◌, [], drop, vec_len};

use no_std_io2::io::{Error, ErrorKind, Result, Write};

/// What a [`Faulty`] does with its next call.
#[derive(Clone, Copy, Debug, PartialEq, Eq)]
pub enum Act {
    /// A `write` passes on at most this many bytes; for 0 it makes no inner call, and returns
    /// `Ok(0)`. A `flush` is passed on.
    Take(usize),
    /// A `write` makes no inner call, and returns `Ok(0)`. A `flush` is passed on.
    Zero,
    /// The call returns an error of this kind, and makes no inner call.
    Fail(ErrorKind),
}

/// A writer in front of another one that fails as its list of acts says. Each `write` or `flush`
/// uses up the next act. Once no act is left, calls are passed on unchanged. `write_all` and
/// `write_rest` have the trait's bodies, so each of their writes uses up one act.
#[derive(Debug, Drop)]
pub struct Faulty<W> {
    inner: W,
    acts: Vec<Act>,
    at: usize,
    ghost within: { at ≤ vec_len acts },
}

impl<W> Faulty<W> {
    ghost use Rattle.io_bench.specs.Faulty.{faulty_inner, acts_left, next_act};

    /// Puts these acts in front of `inner`; the first call uses up the first act.
    pub fn new(inner: W, acts: Vec<Act>) -> Faulty<W>
        ensures inner { faulty_inner result ≡ inner }
        ensures acts { acts_left result ≡ acts.items }
    {
        Faulty { inner, acts, at: 0 }
    }

    /// Gets a reference to the inner writer.
    pub fn get_ref(&self) -> &W
        ensures { result.now ≡ faulty_inner self.now }
    {
        &self.inner
    }

    /// Returns the inner writer. The acts that are left are lost.
    pub fn into_inner(self) -> W
        ensures { result ≡ faulty_inner self }
    {
        self.inner
    }

    // Returns the next act, and uses it up.
    fn spend(&mut self) -> Option<Act>
        ensures inner { faulty_inner self.new ≡ faulty_inner self.old }
        ensures act { result ≡ next_act self.old }
        ensures acts { acts_left self.new ≡ drop 1 (acts_left self.old) }
    {
        if self.at == self.acts.len() {
            return None;
        }
        let act = self.acts[self.at];
        self.at += 1;
        Some(act)
    }
}

/// Tells what the inner writer tells. If the inner writer tells its mishaps, those of the acts that are left are added.
/// It takes all if the inner writer does and no act is left. Each call makes at most one inner call, the one that its
/// act lets through.
impl<W: Write> Write for Faulty<W> {
    ghost use Rattle.io_bench.specs.Faulty.{faulty_inner, faulty_told, acts_left, FaultyMay};

    ghost told = { faulty_told W.told };

    ghost takes_all = { λ f. TakesAll W.Write (faulty_inner f) × (acts_left f ≡ []) };

    ghost may = { FaultyMay W.Write };

    fn write(&mut self, buf: &[u8]) -> Result<usize> {
        match self.spend() {
            None => self.inner.write(buf),
            Some(Act::Fail(kind)) => Err(Error::from(kind)),
            Some(Act::Zero | Act::Take(0)) => Ok(0),
            Some(Act::Take(n)) => {
                let most = n.min(buf.len());
                self.inner.write(&buf[..most])
            }
        }
    }

    fn flush(&mut self) -> Result<()> {
        match self.spend() {
            Some(Act::Fail(kind)) => Err(Error::from(kind)),
            _ => self.inner.flush(),
        }
    }
}
