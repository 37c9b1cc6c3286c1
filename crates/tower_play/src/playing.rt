// [`play`], which plays a script on a tower of buffered writers.
ghost use Rattle.no_std_io2.specs.{BufReader.{BufReaderFits}, Errors.{IsOutOfMemory}, Retries.{IsFaultOf}, Takes.{tells, to_come}};
ghost use Rattle.no_std_io2.specs.Pieces.{newline};
ghost use Rattle.std.specs.Prelude.{◌≡◌, ◌++◌, ◌⊎◌, Some, IfSome, IfOk, IfErr};
ghost use Rattle.tower_play.specs.{declared.playing.Fault.TheVariants.{Io}, Faults.{fault_display, IfIo, IfLine}, Reading.{IsBadAt}};
ghost use Rattle.tower_play.specs.Play.{Shows, ShowsRun, IsPlay, WritesText};

use crate::memory::{Refused, replies_of};
use crate::report::report_of;
use crate::script::Script;
use io_bench::{Act, Faulty, Op};
use no_std_io2::io::{BufRead, BufReader, BufWriter, Error, ErrorKind, LineWriter, Read, Write};
use std::alloc::Global;
use std::fmt;

/// The tower on which a script is played. The first word of each name is the outer level.
#[derive(Clone, Copy, Debug, PartialEq, Eq)]
pub enum Shape {
    /// A `BufWriter`.
    Buf,
    /// A `LineWriter`.
    Line,
    /// A `BufWriter` over a `BufWriter`.
    BufBuf,
    /// A `LineWriter` over a `BufWriter`.
    LineBuf,
}

/// The reason why a script was not played.
#[derive(Debug, Drop)]
pub enum Fault {
    /// A fault of the input or output, or a failed allocation.
    Io(Error),
    /// The script has bad lines; this is the number of the first, from 1.
    Line(u64),
}

impl From<Error> for Fault {
    ghost from_gives = { λ e fault. fault ≡ Io e };

    fn from(error: Error) -> Fault {
        Self::Io(error)
    }
}

impl From<Refused> for Fault {
    ghost from_gives = { λ _ fault. IfIo IsOutOfMemory fault × IfLine (λ _. ⊥) fault };

    fn from(_refused: Refused) -> Fault {
        Fault::Io(Error::from(ErrorKind::OutOfMemory))
    }
}

impl fmt::Display for Fault {
    ghost output = { λ fault. Some (fault_display fault) };

    fn fmt<W: fmt::Write>(&self, f: &mut fmt::Formatter<W>) -> fmt::Result {
        match self {
            Fault::Io(error) => write!(f, "{error}"),
            Fault::Line(number) => write!(f, "bad line {number}"),
        }
    }
}

// The device below each tower, and the size of each buffer.
type Base = Faulty<Vec<u8>>;

const ROOM: usize = 8;

// The size of the buffer through which a script is read.
const INPUT_ROOM: usize = 64;

// A tower that can show which bytes are out and held.
trait Tower: Write {
    // Returns the bytes that are out.
    fn out(&self) -> &[u8]
        ensures { result.now ≡ (Self.told self.now).out };

    // Returns the bytes that are held: the inner level's, and then the outer level's.
    fn held(&self) -> (&[u8], &[u8])
        ensures { result.0.now ++ result.1.now ≡ (Self.told self.now).held };
}

impl Tower for BufWriter<Base, ROOM> {
    fn out(&self) -> &[u8] {
        self.get_ref().get_ref().as_slice()
    }

    fn held(&self) -> (&[u8], &[u8]) {
        (b"", self.buffer())
    }
}

impl Tower for LineWriter<Base, ROOM> {
    fn out(&self) -> &[u8] {
        self.get_ref().get_ref().as_slice()
    }

    fn held(&self) -> (&[u8], &[u8]) {
        (b"", self.buffer())
    }
}

impl Tower for BufWriter<BufWriter<Base, ROOM>, ROOM> {
    fn out(&self) -> &[u8] {
        self.get_ref().get_ref().get_ref().as_slice()
    }

    fn held(&self) -> (&[u8], &[u8]) {
        (self.get_ref().buffer(), self.buffer())
    }
}

impl Tower for LineWriter<BufWriter<Base, ROOM>, ROOM> {
    fn out(&self) -> &[u8] {
        self.get_ref().get_ref().get_ref().as_slice()
    }

    fn held(&self) -> (&[u8], &[u8]) {
        (self.get_ref().buffer(), self.buffer())
    }
}

/// Reads a script, plays it on a tower over a vector that fails on command, and writes the results:
/// a line for each reply, the bytes that are out, and those that are held. It first reads the whole
/// script. It writes the results by one `write_all`, and flushes.
///
/// # Errors
/// Returns a fault of the input or the output, an `OutOfMemory` if an allocation failed, or the
/// number of the first bad line; nothing was played then. The output is dropped.
pub fn play<R: Read + Drop, W: Write + Drop>(
    alloc: Global,
    input: R,
    mut output: W,
    shape: Shape,
) -> Result<W, Fault>
    requires reader_fits { BufReaderFits R.row 64 }
    // The tower has this shape: the device got the calls that such a tower makes.
    // The script is the text that the input tells.
    ensures ok { IfOk result (λ w. WritesText (IsPlay ⟦<Faulty<Vec<u8>> as Write>⟧ shape (to_come (tells R.Read input)))
        (W.told output) (W.told w)) }
    // A reported bad line is the first one of the input.
    ensures first { IfErr result (IfLine (λ n. IfSome (to_come (tells R.Read input)) (λ E. IsBadAt newline E n))) }
    // Any other error is the first fault of the input, a failed allocation, or an error of
    // the output.
    ensures other { IfErr result (IfIo (λ e. IsFaultOf (tells R.Read input) (W.told output) e ⊎ IsOutOfMemory e)) }
{
    let reader = BufReader::<R, INPUT_ROOM>::new(input);
    let Script { acts, calls } = Script::read(alloc, reader.split(alloc, b'\n'))?;
    let ops = calls.ops(alloc)?;
    let report = play_ops(alloc, acts, &ops, shape)?;
    output.write_all(&report)?;
    output.flush()?;
    Ok(output)
}

fn play_ops(alloc: Global, acts: Vec<Act>, ops: &[Op<'_>], shape: Shape) -> Result<Vec<u8>, Refused>
    ensures ok { IfOk result (λ text. Shows ⟦<Faulty<Vec<u8>> as Write>⟧ shape acts.items ops.now text.items) }
{
    let base = Faulty::new(Vec::new(alloc), acts);
    match shape {
        Shape::Buf => play_on(alloc, BufWriter::<Base, ROOM>::new(base), ops),
        Shape::Line => play_on(alloc, LineWriter::<Base, ROOM>::new(base), ops),
        Shape::BufBuf => {
            let inner = BufWriter::<Base, ROOM>::new(base);
            play_on(
                alloc,
                BufWriter::<BufWriter<Base, ROOM>, ROOM>::new(inner),
                ops,
            )
        }
        Shape::LineBuf => {
            let inner = BufWriter::<Base, ROOM>::new(base);
            play_on(
                alloc,
                LineWriter::<BufWriter<Base, ROOM>, ROOM>::new(inner),
                ops,
            )
        }
    }
}

// Makes the calls, and then the text of the results, before the tower is dropped.
fn play_on<T: Tower + Drop>(alloc: Global, mut tower: T, ops: &[Op<'_>]) -> Result<Vec<u8>, Refused>
    ensures ok { IfOk result (λ text. ShowsRun T.Write tower ops.now text.items) }
{
    let replies = replies_of(alloc, &mut tower, ops)?;
    let (inner, outer) = tower.held();
    report_of(alloc, &replies, tower.out(), inner, outer)
}
