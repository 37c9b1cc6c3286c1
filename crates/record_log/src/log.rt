// [`RecordLog`].
ghost use Rattle.std.specs.Prelude.{◌≡◌, []};
ghost use Rattle.no_std_io2.specs.{BufWriter.{writer_inner, writer_buffer, Unwraps}, Writers.{FlushOf}};
ghost use Rattle.record_log.specs.Log.{Appends, SaysLong, log_writer, log_inner, log_held};

use crate::records::{HEADER, header_of};
use no_std_io2::io::{BufWriter, Error, ErrorKind, IntoInnerError, Result, Write};

/// A log of records, with a buffer of `S` bytes in front of any writer. A record, which is its payload and
/// [`HEADER`] bytes, has to be shorter than the buffer.
///
/// The bytes that the device has, followed by the held bytes, are always the bytes at the start, followed by exactly
/// the records for which `append` returned `Ok`. Those for which a later `sync` returned `Ok` are on the device.
///
/// Dropping it tries once to send the held bytes, and ignores a fault.
#[derive(Drop)]
pub struct RecordLog<W: Write + Drop, const S: usize> {
    inner: BufWriter<W, S>,
}

impl<W: Write + Drop, const S: usize> RecordLog<W, S> {
    /// Makes a log that goes on where `device` stands, which is where [`open`](crate::open) leaves it.
    pub fn new(device: W) -> RecordLog<W, S>
        ensures inner { log_inner result ≡ device }
        ensures empty { log_held result ≡ [] }
    {
        RecordLog {
            inner: BufWriter::new(device),
        }
    }

    /// Gets a reference to the writer below.
    pub fn get_ref(&self) -> &W
        ensures { result.now ≡ log_inner self.now }
    {
        self.inner.get_ref()
    }

    /// Appends a record with this payload. After `Ok` all of it was accepted: it is held, or out. A power cut may still
    /// lose it, until a `sync` returns `Ok`.
    ///
    /// # Errors
    /// Returns `InvalidInput` if the record is not shorter than the buffer, or the payload has 2^32 bytes or more; no
    /// call is then made. Otherwise returns the fault of the sending of earlier records, if there is no room beside
    /// them. After each error nothing of this record was accepted, and the call may be made again. Never returns
    /// `Interrupted`.
    pub fn append(&mut self, payload: &[u8]) -> Result<()>
        ensures appends { Appends W.Write payload.now self.old result self.new }
    {
        if S <= HEADER || payload.len() >= S - HEADER || payload.len() >= 1 << 32 {
            return Err(too_long());
        }
        self.inner.write_whole(&header_of(payload), payload)
    }

    /// Sends all held bytes, and flushes the writer below. After `Ok` each record that was appended is on the device.
    ///
    /// # Errors
    /// Returns the sending's fault, or the device's error if its `flush` fails. Bytes that were not sent are still
    /// held; the same call continues, and no byte goes out twice.
    pub fn sync(&mut self) -> Result<()>
        ensures law { FlushOf ⟦<BufWriter<W, S> as Write>⟧ (log_writer self.old) result (log_writer self.new) }
    {
        self.inner.flush()
    }

    /// Returns the writer below, as a power cut leaves it: the held bytes are lost.
    pub fn cut(self) -> W
        ensures { result ≡ log_inner self }
    {
        let RecordLog { inner } = self;
        inner.into_parts().0
    }

    /// Sends the held bytes and returns the writer below, which is not flushed. If nothing is held, it makes no call.
    ///
    /// # Errors
    /// Returns the sending's fault with the buffered writer, which holds the bytes that were not sent.
    pub fn into_inner(self) -> std::result::Result<W, IntoInnerError<BufWriter<W, S>>>
        ensures law { Unwraps W.Write writer_inner writer_buffer (log_writer self) result }
    {
        let RecordLog { inner } = self;
        inner.into_inner()
    }
}

// Makes the error of a record that is not shorter than the buffer.
fn too_long() -> Error
    ensures { SaysLong result }
{
    let text = "a record is longer than the buffer";
    Error::new(ErrorKind::InvalidInput, text)
}
