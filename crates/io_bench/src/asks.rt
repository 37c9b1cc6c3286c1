// [`run_reads`], a list of calls on a buffered reader, and how many inner reads they make.
ghost use Rattle.std.specs.Prelude.{◌≡◌, ◌+◌, ◌-◌, ◌/◌, ◌≤◌, ℕ, List, length};
ghost use Rattle.no_std_io2.specs.{Events.{Event}, Takes.{Takes, tells}, Meter.{FillsRoom, IsReadMeter}, BufReader.{reader_inner}};
ghost use Rattle.io_bench.specs.Asks.{AllFit, Answered, CameTo, Fits, Steps, left_behind};

use no_std_io2::io::{BufRead, BufReader, ErrorKind, Read, Result};

/// A call to make on a buffered reader.
#[derive(Clone, Copy, Debug, PartialEq, Eq, Drop)]
pub enum Ask {
    /// `read` into this many bytes.
    Read(usize),
    /// `read_exact` into this many bytes.
    Exact(usize),
    /// `fill_buf`, and then `consume` of this many of the lent bytes, or of all if there are fewer.
    Fill(usize),
}

/// The totals of a run of asks. Each is at most the number of asks.
#[derive(Clone, Copy, Debug, PartialEq, Eq, Drop)]
pub struct ReadTotals {
    /// The number of asks that met the end: a `read` gave no byte and nothing was held afterwards,
    /// a `read_exact` returned `UnexpectedEof`, or a `fill_buf` lent nothing.
    pub at_end: u64,
    /// The number of asks that failed in another way.
    pub failed: u64,
}

// Makes a `read`, and returns whether it met the end.
fn ask_read<R: Read, const S: usize>(r: &mut BufReader<R, S>, buf: &mut [u8]) -> Result<bool>
    ensures { Answered ⟦<BufReader<R, S> as Read>⟧ (Ask.Read (length buf.old)) r.old result r.new }
{
    let n = r.read(buf)?;
    Ok(n == 0 && r.buffer().is_empty())
}

// Makes a `read_exact`, and returns whether it met the end.
fn ask_exact<R: Read, const S: usize>(r: &mut BufReader<R, S>, buf: &mut [u8]) -> Result<bool>
    ensures { Answered ⟦<BufReader<R, S> as Read>⟧ (Ask.Exact (length buf.old)) r.old result r.new }
{
    match r.read_exact(buf) {
        Ok(()) => Ok(false),
        Err(e) => match e.kind() {
            ErrorKind::UnexpectedEof => Ok(true),
            _ => Err(e),
        },
    }
}

// Makes a `fill_buf` and a `consume`, and returns whether they met the end.
fn ask_fill<R: Read, const S: usize>(r: &mut BufReader<R, S>, most: usize) -> Result<bool>
    ensures { Answered ⟦<BufReader<R, S> as Read>⟧ (Ask.Fill most) r.old result r.new }
{
    let lent = r.fill_buf()?.len();
    r.consume(most.min(lent));
    Ok(lent == 0)
}

// Makes one ask, and returns whether it met the end.
fn make_ask<R: Read, const S: usize>(
    r: &mut BufReader<R, S>,
    ask: Ask,
    buf: &mut [u8],
) -> Result<bool>
    requires { Fits (length buf.old) ask }
    ensures len { length buf.new ≡ length buf.old }
    ensures answered { Answered ⟦<BufReader<R, S> as Read>⟧ ask r.old result r.new }
{
    match ask {
        Ask::Read(len) => ask_read(r, &mut buf[..len]),
        Ask::Exact(len) => ask_exact(r, &mut buf[..len]),
        Ask::Fill(most) => ask_fill(r, most),
    }
}

/// Makes the calls of `asks` on a buffered reader, in order, and returns their totals. Each reads
/// into the front of `buf`, which has room for the longest of them. A failed ask does not stop it.
///
/// It makes exactly the calls of the asks, in order, and no others. The totals count the results of
/// all asks. Each ask takes what its call takes.
///
/// If the inner reader is filling, as slices and cursors are, it stays so, no ask fails and the number of
/// inner reads is bounded: if N bytes are taken, each number that counts the reads of the inner reader, as
/// a [`Tally`](crate::Tally) does, rises by at most `N / S + 1 + at_end`.
pub fn run_reads<R: Read, const S: usize>(
    r: &mut BufReader<R, S>,
    asks: &[Ask],
    buf: &mut [u8],
) -> ReadTotals
    requires { AllFit (length buf.old) asks.now }
    ensures came_to { CameTo ⟦<BufReader<R, S> as Read>⟧ asks.now r.old result.at_end result.failed r.new }
    ensures takes { (taken : List Event)
        × Takes (tells ⟦<BufReader<R, S> as Read>⟧ r.old) taken (tells ⟦<BufReader<R, S> as Read>⟧ r.new) }
    ensures fills { FillsRoom R.Read (reader_inner r.old) → FillsRoom R.Read (reader_inner r.new) }
    ensures steps { FillsRoom R.Read (reader_inner r.old) → (result.failed ≡ 0)
        × Steps asks.now (left_behind R.Read r.old) (left_behind R.Read r.new) result.at_end }
    ensures bound { FillsRoom R.Read (reader_inner r.old) → (cost : R → ℕ) → IsReadMeter R.may cost
        → cost (reader_inner r.new) ≤ cost (reader_inner r.old)
        + ((length (left_behind R.Read r.old) - length (left_behind R.Read r.new)) / S + 1 + result.at_end) }
{
    let mut totals = ReadTotals {
        at_end: 0,
        failed: 0,
    };
    'asks: for ask in asks {
        let Ok(is_end) = make_ask(r, *ask, buf) else {
            totals.failed += 1;
            continue;
        };
        totals.at_end += u64::from(is_end);
    }
    totals
}
