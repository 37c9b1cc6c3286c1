// Copies to a vector, and a device of the standard library behind a `Patient`.
use no_std_io2::io::{BufWriter, ErrorKind, Write};
use std::test::Fail;
use system_streams::{Patient, ToStd, copy_through};

// A turn too few or too many, and bytes that are lost with the turns.
#[test]
fn a_patient_reader_is_copied_while_it_has_turns(rt: HostRuntime) -> Result<(), Fail> {
    let patient = Patient::new(&b"abcdef"[..], 3);
    let (count, v) = copy_through(patient, Vec::<u8>::new(rt.alloc()), false)?;
    assert!(rt; count == 6 && v.as_slice() == b"abcdef".as_slice());
    let mut lent = Vec::<u8>::new(rt.alloc());
    let copied = copy_through(Patient::new(&b"abcdef"[..], 2), &mut lent, false);
    let e = copied.err().ok_or("copied")?;
    assert!(rt; e.kind() == ErrorKind::TimedOut);
    assert!(rt; e.into_inner() == Some("no turns left"));
    assert!(rt; lent.as_slice() == b"abcdef".as_slice());
    Ok(())
}

// A flush that does not reach the device.
#[test]
fn a_patient_writer_flushes_its_device(rt: HostRuntime) -> Result<(), Fail> {
    let device = BufWriter::<_, 8>::new(Vec::<u8>::new(rt.alloc()));
    let mut patient = Patient::new(ToStd::new(device), 9);
    patient.write_all(b"ab")?;
    assert!(rt; patient.get_ref().get_ref().get_ref().is_empty());
    patient.flush()?;
    assert!(rt; patient.get_ref().get_ref().get_ref().as_slice() == b"ab".as_slice());
    Ok(())
}
