// A [`Patient`] around a device with a position.
ghost use Rattle.std.specs.Prelude.{◌≡◌};
ghost use Rattle.system_streams.specs.Patient.{std_place};

use super::{Patient, device_error};
use crate::system::SystemSeek;
use no_std_io2::io::{Result, Seek, SeekFrom};
use std::io;

fn std_place(place: SeekFrom) -> io::SeekFrom
    ensures { result ≡ std_place place }
{
    match place {
        SeekFrom::Start(n) => io::SeekFrom::Start(n),
        SeekFrom::End(offset) => io::SeekFrom::End(offset),
        SeekFrom::Current(offset) => io::SeekFrom::Current(offset),
    }
}

/// Each seek makes the same seek of the device, once, and spends no turn. No store is told.
impl<D: SystemSeek> Seek for Patient<D> {
    ghost use Rattle.system_streams.specs.Patient.{PatientSeeks};

    ghost may = { PatientSeeks ⟦<D as SystemSeek>⟧ };

    fn seek(&mut self, pos: SeekFrom) -> Result<u64> {
        match self.device.ask_seek(std_place(pos)) {
            Ok(at) => Ok(at),
            Err(e) => {
                self.last_error = Some(e);
                Err(device_error(e.kind()))
            }
        }
    }
}
