// What `write!` prints to each writer, and what it does if a device or the text's own `fmt` fails.
ghost use Rattle.no_std_io2.specs.Moves.{told_out};

use no_std_io2::io::{
    Cursor, Error, ErrorKind, LineWriter, Result as IoResult, Write, print_to_object,
};
use std::fmt;
use std::test::Fail;

// A device that takes some writes whole, and then fails at each, with a text of its own.
#[derive(Drop)]
struct Failing {
    taken: Vec<u8>,
    calls: usize,
}

impl Write for Failing {
    ghost told = { λ d. told_out d.taken.items };

    fn write(&mut self, buf: &[u8]) -> IoResult<usize> {
        if self.calls == 0 {
            return Err(Error::new(ErrorKind::BrokenPipe, "unplugged"));
        }
        self.calls -= 1;
        self.taken.extend_from_slice(buf)?;
        Ok(buf.len())
    }

    fn flush(&mut self) -> IoResult<()> {
        Ok(())
    }
}

// A value that prints `ab`, and then returns an error of its own.
#[derive(Drop)]
struct Broken;

impl fmt::Display for Broken {
    fn fmt<W: fmt::Write>(&self, f: &mut fmt::Formatter<W>) -> fmt::Result {
        f.write_str("ab")?;
        Err(fmt::Error)
    }
}

// A value that prints `abcdef` in two parts, and ignores the results of the parts.
#[derive(Drop)]
struct Deaf;

impl fmt::Display for Deaf {
    fn fmt<W: fmt::Write>(&self, f: &mut fmt::Formatter<W>) -> fmt::Result {
        let _ = f.write_str("abcde");
        let _ = f.write_str("f");
        Ok(())
    }
}

// A value that prints values.
#[derive(Drop)]
struct Point {
    x: i32,
    y: i32,
}

impl fmt::Display for Point {
    fn fmt<W: fmt::Write>(&self, f: &mut fmt::Formatter<W>) -> fmt::Result {
        write!(f, "({}, {})", self.x, self.y)
    }
}

// A piece that is left out, printed twice or in another order, and a width that is dropped.
#[test]
fn a_text_is_printed_whole(rt: HostRuntime) -> Result<(), Fail> {
    let mut bytes = Vec::<u8>::new(rt.alloc());
    let point = Point { x: 1, y: -2 };
    write!(bytes, "n is {:>3}, {:02x}, {point} and {:+}\n", -7, 10, 3)?;
    assert!(rt; bytes.as_slice() == b"n is  -7, 0a, (1, -2) and +3\n".as_slice());
    Ok(())
}

// A text that does not make the writer's own calls.
#[test]
fn a_text_is_printed_to_each_writer(rt: HostRuntime) -> Result<(), Fail> {
    let mut lines = LineWriter::<Vec<u8>, 8>::new(Vec::new(rt.alloc()));
    writeln!(lines, "{}", 10)?;
    assert!(rt; lines.get_ref().as_slice() == b"10\n".as_slice());
    let mut boxed: Box<dyn Write + Drop> = Box::new(rt.alloc(), Vec::<u8>::new(rt.alloc()))?;
    writeln!(boxed, "{}", 10)?;
    let mut bytes = Vec::<u8>::new(rt.alloc());
    let mut lent: &mut dyn Write = &mut bytes;
    writeln!(&mut lent, "{}", 10)?;
    assert!(rt; bytes.as_slice() == b"10\n".as_slice());

    // A text that fits to the last byte is printed whole, and a longer one not at all.
    print_to_object::<_, _, 4>(&mut bytes, format_args!("{}", 1234))?;
    let long = print_to_object::<_, _, 4>(&mut bytes, format_args!("{}", 12345));
    assert!(rt; long.err().ok_or("printed")?.kind() == ErrorKind::WriteZero);
    assert!(rt; bytes.as_slice() == b"10\n1234".as_slice());
    Ok(())
}

// A piece between two values that is left out, and a text that is cut where it no longer fits.
#[test]
fn a_text_is_printed_to_an_object(rt: HostRuntime) -> Result<(), Fail> {
    let (id, value, point) = (7, -21, Point { x: 1, y: -2 });
    let mut bytes = Vec::<u8>::new(rt.alloc());
    print_to_object::<_, _, 16>(&mut bytes, format_args!("{id}\n"))?;
    print_to_object::<_, _, 16>(&mut bytes, format_args!("{id}={value}\n"))?;
    assert!(rt;
        print_to_object::<_, _, 16>(&mut bytes, format_args!("t: {id:>4}, {point}\n")).is_err()
    );
    print_to_object::<_, _, 17>(&mut bytes, format_args!("t: {id:>4}, {point}\n"))?;
    assert!(rt; bytes.as_slice() == b"7\n7=-21\nt:    7, (1, -2)\n".as_slice());
    let mut lent: &mut dyn Write = &mut bytes;
    let broken = print_to_object::<_, _, 16>(lent, format_args!("[{}]", Broken));
    assert!(rt; broken.err().ok_or("printed")?.get_ref().copied() == Some("formatter error"));
    assert!(rt; bytes.len() == 25);
    Ok(())
}

// An error that is ignored, made anew or returned without its text, and a piece that is written
// after it.
#[test]
fn a_device_that_fails_at_a_piece_has_the_front_before_it(rt: HostRuntime) -> Result<(), Fail> {
    let whole = b"t=  21, (1, -2)\n".as_slice();
    'pieces: for calls in 0..100 {
        let mut device = Failing {
            taken: Vec::new(rt.alloc()),
            calls,
        };
        match write!(device, "{}={:>4}, {}\n", "t", 21, Point { x: 1, y: -2 }) {
            Ok(()) => {
                assert!(rt; device.taken.as_slice() == whole);
                assert!(rt; calls > 5);
                return Ok(());
            }
            Err(e) => {
                assert!(rt; e.kind() == ErrorKind::BrokenPipe, "{calls}");
                assert!(rt; e.get_ref().copied() == Some("unplugged"), "{calls}");
                assert!(rt; whole.starts_with(device.taken.as_slice()), "{calls}");
            }
        }
    }
    assert!(rt; false);
    Ok(())
}

// A device's error that a text ignores, reported as success.
#[test]
fn a_text_that_passes_over_errors_hides_none(rt: HostRuntime) -> Result<(), Fail> {
    let mut room = [0u8; 4];
    let mut device = Cursor::new(&mut room[..]);
    let e = write!(device, "{Deaf}!").err().ok_or("printed")?;
    assert!(rt; e.kind() == ErrorKind::WriteZero);
    assert!(rt; room == *b"abcd");
    Ok(())
}

// A text's own failure that is ignored, and printed bytes that are taken back.
#[test]
fn a_text_that_fails_is_told(rt: HostRuntime) -> Result<(), Fail> {
    let mut device = Vec::<u8>::new(rt.alloc());
    let e = write!(device, "<{Broken}>").err().ok_or("printed")?;
    assert!(rt; e.kind() == ErrorKind::Other);
    assert!(rt; e.get_ref().copied() == Some("formatter error"));
    assert!(rt; device.as_slice() == b"<ab".as_slice());
    let mut room = [0u8; 2];
    let mut full = Cursor::new(&mut room[..]);
    let e = write!(full, "<{Broken}>").err().ok_or("printed")?;
    assert!(rt; e.kind() == ErrorKind::WriteZero);
    assert!(rt; e.get_ref().copied() == Some("formatter error"));
    Ok(())
}
