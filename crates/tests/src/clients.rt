// The examples of pages, and those of `examples`: a test for each, which finds one that is no longer what its call does.
use examples::{add_table, checksum_of, head, print_table, read_front, save, save_summed};
use io_bench::{Act, Event, Faulty, Feed, Tally};
use no_std_io2::io::{BufReader, BufWriter, Cursor, ErrorKind, Read, Write};
use std::test::Fail;

// The first example of CALLING.md of `no_std_io2`.
#[test]
fn saved(rt: HostRuntime) -> Result<(), Fail> {
    let device = save(Vec::new(rt.alloc()), b"a record")?;
    assert!(rt; device.as_slice() == b"a record".as_slice());
    assert!(rt; save(device, b"")?.as_slice() == b"a record".as_slice()); // an empty text is no error
    Ok(())
}

// The example of PROVING.md on objects. The last piece left out, or what stands behind it in the buffer summed too. A read
// behind the end: two full pieces are two reads, and the last one, and the end after it, are two more.
#[test]
fn a_checksum_asks_for_one_end(rt: HostRuntime) -> Result<(), Fail> {
    let mut r = Tally::new(Cursor::new(*b"abcde"));
    let mut piece = [0u8; 2];
    assert!(rt; checksum_of(&mut r, &mut piece)? == 495);
    assert!(rt; r.reads() == 4);
    Ok(())
}

// A flush behind each row of a table, which through a buffer is a write of the device for each.
#[test]
fn a_table_is_one_write(rt: HostRuntime) -> Result<(), Fail> {
    let mut w = BufWriter::<_, 64>::new(Tally::new(Cursor::new([0u8; 64])));
    print_table(&mut w, &[(1, 20), (3, 400)])?;
    w.flush()?;
    assert!(rt; w.get_ref().writes() == 1);
    let page = add_table(Cursor::new([b'.'; 64]), &[(1, 20), (3, 400)])?;
    assert!(rt; page.position() == 11);
    assert!(rt; page.get_ref().starts_with(b"1=20\n3=400\n."));
    Ok(())
}

// What a `Take` leaves: a byte too many or too few.
#[test]
fn a_take_leaves_what_follows(rt: HostRuntime) -> Result<(), Fail> {
    let mut r = b"abcde".as_slice();
    let mut front = Vec::<u8>::new(rt.alloc());
    assert!(rt; read_front(&mut r, 2, &mut front)? == 2);
    assert!(rt; front.as_slice() == b"ab".as_slice());
    assert!(rt; r == b"cde".as_slice());
    Ok(())
}

// The loop of PROVING.md over lines. A line too many or too few; the part of a line before a fault, which is lost.
#[test]
fn lines_of_a_text(rt: HostRuntime) -> Result<(), Fail> {
    let mut r = Cursor::new(*b"a\nbc\nd");
    let mut out = Vec::<u8>::new(rt.alloc());
    assert!(rt; head(rt.alloc(), &mut r, &mut out, 2)? == 2);
    assert!(rt; out.as_slice() == b"a\nbc\n".as_slice());
    assert!(rt; head(rt.alloc(), &mut r, &mut out, 2)? == 1);
    assert!(rt; out.as_slice() == b"a\nbc\nd".as_slice());
    Ok(())
}

#[test]
fn lines_before_a_fault(rt: HostRuntime) -> Result<(), Fail> {
    let fault = Event::Fail(ErrorKind::WouldBlock);
    let events = vec![in rt.alloc();
        Event::Byte(b'a'),
        Event::Byte(b'\n'),
        Event::Byte(b'b'),
        fault,
    ]?;
    let mut r = BufReader::<_, 4>::new(Feed::new(events, 4));
    let mut out = Vec::<u8>::new(rt.alloc());
    assert!(rt; head(rt.alloc(), &mut r, &mut out, 2).is_err());
    assert!(rt; out.as_slice() == b"a\nb".as_slice());
    Ok(())
}

// The test of CALLING.md of `io_bench`.
// The device takes three bytes, and then fails twice: no byte is lost, and none is sent again.
#[test]
fn a_record_outlives_faults(rt: HostRuntime) -> Result<(), Fail> {
    let acts = vec![in rt.alloc(); Act::Take(3), Act::Fail(ErrorKind::WouldBlock), Act::Zero]?;
    let device = Faulty::new(Vec::<u8>::new(rt.alloc()), acts);
    let mut w = BufWriter::<_, 16>::new(device);
    w.write_all(b"a record")?;
    assert!(rt; w.flush().is_err());
    assert!(rt; w.get_ref().get_ref().as_slice() == b"a r".as_slice());
    assert!(rt; w.flush().is_err());
    w.flush()?;
    assert!(rt; w.get_ref().get_ref().as_slice() == b"a record".as_slice());
    Ok(())
}

// A sum of other bytes than those that the vector got behind its own, or a long text that is refused.
#[test]
fn summed(rt: HostRuntime) -> Result<(), Fail> {
    let text = [3u8; 5000];
    let (device, sum) = save_summed(vec![in rt.alloc(); b'a', b'b']?, text.as_slice())?;
    assert!(rt; sum == 15000);
    assert!(rt; device.len() == 5002 && device.starts_with(b"ab\x03") && device.ends_with(b"\x03"));
    Ok(())
}
