// A device with a body of its own for a call that the trait makes of others.
use no_std_io2::io::{Error, ErrorKind, Result as IoResult, Seek, SeekFrom, Stored};
use std::test::Fail;

// A device at position 9 of 9 bytes that says so itself: a seek to where it is fails.
#[derive(Drop)]
struct AtEnd;

impl Stored for AtEnd {}

impl Seek for AtEnd {
    fn seek(&mut self, pos: SeekFrom) -> IoResult<u64> {
        match pos {
            SeekFrom::Current(_) => Err(Error::from(ErrorKind::Unsupported)),
            _ => Ok(9),
        }
    }

    fn stream_position(&mut self) -> IoResult<u64> {
        Ok(9)
    }
}

// A `stream_len`, or a boxed seeker's `stream_position`, that seeks, although the device has a body of its own for it.
#[test]
fn a_device_is_asked_for_its_position(rt: HostRuntime) -> Result<(), Fail> {
    assert!(rt; AtEnd.stream_len()? == 9);
    let mut boxed: Box<dyn Seek + Drop> = Box::new(rt.alloc(), AtEnd)?;
    assert!(rt; boxed.stream_position()? == 9);
    assert!(rt; boxed.stream_len()? == 9);
    Ok(())
}
