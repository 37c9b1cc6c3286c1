// What holds of a stream holds through references, boxes, boxed objects and buffers.
ghost use Rattle.std.specs.Prelude.{◌≡◌, [], IfErr, OnOk};
ghost use Rattle.no_std_io2.specs.{inner.{BufReader.{HasNoBuffer}, BufWriter.{store_unheld}}, BufReader.{reader_inner, reader_store}};
ghost use Rattle.no_std_io2.specs.{BufWriter.{writer_buffer, writer_inner}, Cursor.{cursor_inner, cursor_position}, Errors.{IsOutOfMemory}};
ghost use Rattle.no_std_io2.specs.{Seek.{SeekLaw, Seeks}, Takes.{KeepsContent, store_at}, Read.{ReadLaw}, Writers.{WriteOf}};

use no_std_io2::io::{
    AsSlice, BufReader, BufWriter, Cursor, LineWriter, Read, Result, Seek, SeekFrom, Write,
};
use std::alloc::Allocator;

// A call through a box or a reference is the same call of what is behind it: it keeps the law of that.
fn writes_through<'a, W: Write>(w: &mut Box<&'a mut W>, x: &[u8]) -> Result<usize>
    ensures { WriteOf W.Write w.old.value.now x.now result w.new.value.now }
{
    w.write(x)
}

fn reads_through<'a, R: Read>(r: &mut Box<&'a mut R>, buf: &mut [u8]) -> Result<usize>
    ensures { ReadLaw R.Read r.old.value.now buf.old result buf.new r.new.value.now }
{
    r.read(buf)
}

fn seeks_through<'a, T: Seek>(s: &mut Box<&'a mut T>, target: SeekFrom) -> Result<u64>
    ensures { SeekLaw T.Seek s.old.value.now target result s.new.value.now }
{
    s.seek(target)
}

// A tower over a vector fails only if an allocation does.
fn fails_by_memory_alone<A: Allocator, const S: usize, const T: usize>(
    w: &mut LineWriter<BufWriter<Vec<u8, A>, S>, T>,
    x: &[u8],
) -> Result<()>
    ensures { IfErr result IsOutOfMemory }
{
    w.write_all(x)?;
    w.flush()
}

// A seek of a cursor goes to its target in the content.
fn seeks_in_a_content<T: AsSlice<u8>>(c: &mut Box<Cursor<T>>, target: SeekFrom) -> Result<u64>
    ensures { KeepsContent (store_at (T.slice (cursor_inner c.old.value)) (cursor_position c.old.value))
        (λ len was now. Seeks len was target result now)
        (store_at (T.slice (cursor_inner c.new.value)) (cursor_position c.new.value)) }
{
    c.seek(target)
}

// A seek from the start through a buffer makes one seek of the device. After `Ok` the buffer is empty.
#[tactic(auto, using(std::proofs::lemmas::Grind::common_steps))]
fn seeks_once<R: Seek, const S: usize>(r: &mut BufReader<R, S>, place: u64) -> Result<u64>
    ensures store { KeepsContent (reader_store R.store r.old) (λ len was now. Seeks len was (SeekFrom.Start place) result now)
        (reader_store R.store r.new) }
    ensures call { SeekLaw R.Seek (reader_inner r.old) (SeekFrom.Start place) result (reader_inner r.new) }
    ensures empty { OnOk result (HasNoBuffer r.new) }
{
    r.seek(SeekFrom::Start(place))
}

// A seek of a `BufWriter` sends its bytes first. If it is empty, the seek goes to the target in the device's store.
#[tactic(auto, using(no_std_io2::proofs::BufWriterCalls::seek_empties))]
fn sends_before_a_seek<W: Write + Seek + Drop, const S: usize>(
    w: &mut BufWriter<W, S>,
    target: SeekFrom,
) -> Result<u64>
    ensures sent { OnOk result (writer_buffer w.new ≡ []) }
    ensures store { KeepsContent (store_unheld (writer_buffer w.old) (W.store (writer_inner w.old)))
        (λ len was now. Seeks len was target result now) (store_unheld (writer_buffer w.new) (W.store (writer_inner w.new))) }
{
    w.seek(target)
}
