// Numbers by the crate `byteorder` over this library's streams.
ghost use Rattle.std.specs.Prelude.{◌≡◌, ◌≤◌, ◌++◌, drop, length, IfOk, IfSome, Some};
ghost use Rattle.byteorder.specs.Endian.{big_bytes, big_number};
ghost use Rattle.no_std_io2.specs.Takes.{tells};
ghost use Rattle.system_streams.specs.ToStd.{accepted_so_far, bytes_to_come};

use byteorder::{BigEndian, ReadBytesExt, WriteBytesExt};
use no_std_io2::io::{BufReader, BufWriter, Cursor, Read, Write};
use std::io;
use std::test::Fail;
use system_streams::ToStd;

// Writes a sensor's number and the time of its sample, and returns the writer. After an error no clause says what the
// writer accepted.
fn write_sample<W: Write + Drop>(out: W, sensor: u16, time: u64) -> io::Result<W>
    ensures { IfOk result (λ w. accepted_so_far (W.told w)
        ≡ accepted_so_far (W.told out) ++ big_bytes 2 sensor ++ big_bytes 8 time) }
{
    let mut numbers = ToStd::new(out);
    numbers.write_u16::<BigEndian>(sensor)?;
    numbers.write_u64::<BigEndian>(time)?;
    Ok(numbers.into_inner())
}

// Reads a sensor's number and the time of its sample, and returns them with the reader.
fn read_sample<R: Read + Drop>(input: R) -> io::Result<(u16, u64, R)>
    ensures { IfOk result (λ s. IfSome (bytes_to_come (tells R.Read input)) (λ bytes. (10 ≤ length bytes)
        × (s.0 ≡ big_number 2 bytes) × (s.1 ≡ big_number 8 (drop 2 bytes))
        × (bytes_to_come (tells R.Read s.2) ≡ Some (drop 10 bytes)))) }
{
    let mut numbers = ToStd::new(input);
    let sensor = numbers.read_u16::<BigEndian>()?;
    let time = numbers.read_u64::<BigEndian>()?;
    Ok((sensor, time, numbers.into_inner()))
}

// Bytes in another order; bytes that stay in the reader's buffer, or are gone from it.
#[test]
fn numbers_go_out_and_come_back(rt: HostRuntime) -> Result<(), Fail> {
    let mut w = write_sample(
        BufWriter::<_, 4>::new(Vec::new(rt.alloc())),
        0x0102,
        0x0304_0506_0708_090a,
    )?;
    w.write_all(b"!")?;
    let bytes = w.into_inner()?;
    assert!(rt; bytes.as_slice() == b"\x01\x02\x03\x04\x05\x06\x07\x08\x09\x0a!".as_slice());
    let (sensor, time, mut r) = read_sample(BufReader::<_, 4>::new(Cursor::new(bytes)))?;
    assert!(rt; sensor == 0x0102 && time == 0x0304_0506_0708_090a);
    let mut last = [0u8; 1];
    r.read_exact(&mut last)?;
    assert!(rt; last == *b"!" && r.read(&mut last)? == 0);
    Ok(())
}
