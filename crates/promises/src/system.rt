// What a `Patient` and a `ToStd` do between this library and the system's `std::io`.
ghost use Rattle.std.specs.{Io.{KnownBytes.{ReadConsumes, WriteAppends}, Seek.{SeekMoves}}, Prelude.{Some}};
ghost use Rattle.no_std_io2.specs.{Takes.{tells}, Calls.{Sought, Wrote}, Moves.{Moves}, Write.{accepted_of, write_mishap}};
ghost use Rattle.system_streams.specs.Patient.{PatientMay, PatientSeeks, patient_told};
ghost use Rattle.system_streams.specs.ToStd.{accepted_so_far, bytes_to_come, content_of, position_of, std_inner};
ghost use Rattle.promises.specs.Patience.{Fills};

use no_std_io2::io::{Read, Result, Seek, SeekFrom, Write};
use std::io;
use system_streams::{Patient, SystemRead, SystemSeek, SystemWrite, ToStd};

// A write makes one write of the system's, and the bytes that this reports as taken are out.
fn writes_to_the_system<D: SystemWrite>(w: &mut Box<Patient<D>>, x: &[u8]) -> Result<usize>
    ensures moves { Moves (patient_told w.old.value) (accepted_of result x.now) (write_mishap result x.now) (patient_told w.new.value) }
    ensures call { PatientMay ⟦<D as SystemWrite>⟧ w.old.value (Wrote x.now result) w.new.value }
{
    w.write(x)
}

// Whatever bytes a `read_exact` puts into the buffer, the system gave them, and each of its results except the end
// spent a turn.
fn reads_from_the_system<D: SystemRead>(r: &mut Patient<D>, buf: &mut [u8]) -> Result<()>
    ensures { Fills D.known result buf.new r.old r.new }
{
    r.read_exact(buf)
}

// A seek makes one seek of the system's.
fn seeks_in_the_system<D: SystemSeek>(s: &mut Box<Patient<D>>, target: SeekFrom) -> Result<u64>
    ensures { PatientSeeks ⟦<D as SystemSeek>⟧ s.old.value (Sought target result) s.new.value }
{
    s.seek(target)
}

// The system's `std::io` gets the bytes among the told events,
fn gives_bytes_to_the_system<R: Read>(r: &mut ToStd<R>, buf: &mut [u8]) -> io::Result<usize>
    ensures { ReadConsumes (bytes_to_come (tells R.Read (std_inner r.old)))
        (bytes_to_come (tells R.Read (std_inner r.new))) result buf.new }
{
    io::Read::read(r, buf)
}

// and puts bytes behind those that the writer has accepted.
fn takes_bytes_from_the_system<W: Write>(w: &mut ToStd<W>, x: &[u8]) -> io::Result<usize>
    ensures { WriteAppends (Some (accepted_so_far (W.told (std_inner w.old)))) (Some (accepted_so_far (W.told (std_inner w.new)))) result
        x.now }
{
    io::Write::write(w, x)
}

// A seek of the system's `std::io` moves the position of a told store.
fn seeks_for_the_system<T: Seek>(s: &mut ToStd<T>, target: io::SeekFrom) -> io::Result<u64>
    ensures { SeekMoves (position_of (T.store (std_inner s.old))) (position_of (T.store (std_inner s.new)))
        (content_of (T.store (std_inner s.old))) target result }
{
    io::Seek::seek(s, target)
}
