// Texts of base64 by the crate `base64` over this library's streams.
ghost use Rattle.std.specs.Prelude.{◌≡◌, ℕ, List, ◌++◌, IfOk, IfSome, Ok};
ghost use Rattle.base64.specs.{Engines.{standard}, GeneralPurpose.{decode_of, encode_of}};
ghost use Rattle.no_std_io2.specs.Takes.{tells};
ghost use Rattle.system_streams.specs.ToStd.{accepted_so_far, bytes_to_come};

use base64::engine::general_purpose::STANDARD;
use base64::read::DecoderReader;
use base64::write::EncoderWriter;
use no_std_io2::io::{BufReader, BufWriter, Cursor, Read, Write};
use std::alloc::Global;
use std::io;
use std::io::{Read as _, Write as _};
use std::test::Fail;
use system_streams::ToStd;

// Writes the standard encoding of these bytes, and returns the writer. After an error no clause says what it accepted.
fn write_encoded<W: Write + Drop>(out: W, bytes: &[u8]) -> io::Result<W>
    ensures { IfOk result (λ w. accepted_so_far (W.told w) ≡ accepted_so_far (W.told out) ++ encode_of standard bytes.now) }
{
    let mut text = EncoderWriter::new(ToStd::new(out), &STANDARD);
    text.write_all(bytes)?;
    Ok(text.finish()?.into_inner())
}

// Reads all, and returns the bytes whose standard encoding it is. No clause says whose error it returns.
fn read_encoded<R: Read + Drop>(alloc: Global, input: R) -> io::Result<Vec<u8>>
    ensures { IfOk result (λ v. IfSome (bytes_to_come (tells R.Read input))
        (λ text. (x : List ℕ) → decode_of standard text ≡ Ok x → v.items ≡ x)) }
{
    let mut bytes = Vec::new(alloc);
    DecoderReader::new(ToStd::new(input), &STANDARD).read_to_end(&mut bytes)?;
    Ok(bytes)
}

// The test vectors of RFC 4648. Groups that are cut by a buffer, or the last one without its padding.
#[test]
fn texts_go_out_and_come_back(rt: HostRuntime) -> Result<(), Fail> {
    let vectors = [
        (b"".as_slice(), b"".as_slice()),
        (b"f".as_slice(), b"Zg==".as_slice()),
        (b"fo".as_slice(), b"Zm8=".as_slice()),
        (b"foo".as_slice(), b"Zm9v".as_slice()),
        (b"foobar".as_slice(), b"Zm9vYmFy".as_slice()),
    ];
    'vectors: for (bytes, text) in vectors {
        let w = write_encoded(BufWriter::<_, 3>::new(Vec::new(rt.alloc())), bytes)?;
        let written = w.into_inner()?;
        assert!(rt; written.as_slice() == text);
        let r = BufReader::<_, 3>::new(Cursor::new(written));
        assert!(rt; read_encoded(rt.alloc(), r)?.as_slice() == bytes);
    }
    Ok(())
}
