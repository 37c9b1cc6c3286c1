// What errors and their kinds print, that each reports the error of a writer without room for its text, wherever the
// room ends, and kinds as keys.
use no_std_io2::io::{BufWriter, Cursor, Error, ErrorKind, Read, Write};
use std::alloc::Global;
use std::fmt::{Display, Write as _};
use std::hash::{DefaultHasher, Hash, Hasher};
use std::test::Fail;
use std::{fmt, io};
use system_streams::{Patient, ToStd};

// A writer of texts, with room for some bytes.
#[derive(Drop)]
pub struct Narrow {
    pub left: usize,
}

impl fmt::Write for Narrow {
    fn write_str(&mut self, s: &str) -> fmt::Result {
        if s.len() > self.left {
            return Err(fmt::Error);
        }
        self.left -= s.len();
        Ok(())
    }
}

// Returns whether this is what the `Display` of a value prints.
fn is_display<T: Display>(alloc: Global, value: &T, want: &str) -> Result<bool, Fail> {
    let text = format!(in alloc; "{value}")?;
    let mut is_told = true;
    'rooms: for left in 0..want.len() {
        is_told = is_told && write!(&mut Narrow { left }, "{value}").is_err();
    }
    Ok(is_told && text.as_str() == want)
}

const TEXTS: [(ErrorKind, &str); 21] = [
    (ErrorKind::NotFound, "entity not found"),
    (ErrorKind::PermissionDenied, "permission denied"),
    (ErrorKind::ConnectionRefused, "connection refused"),
    (ErrorKind::ConnectionReset, "connection reset"),
    (ErrorKind::ConnectionAborted, "connection aborted"),
    (ErrorKind::NotConnected, "not connected"),
    (ErrorKind::AddrInUse, "address in use"),
    (ErrorKind::AddrNotAvailable, "address not available"),
    (ErrorKind::BrokenPipe, "broken pipe"),
    (ErrorKind::AlreadyExists, "entity already exists"),
    (ErrorKind::WouldBlock, "operation would block"),
    (ErrorKind::InvalidInput, "invalid input parameter"),
    (ErrorKind::InvalidData, "invalid data"),
    (ErrorKind::TimedOut, "timed out"),
    (ErrorKind::WriteZero, "write zero"),
    (ErrorKind::Interrupted, "operation interrupted"),
    (ErrorKind::Other, "other os error"),
    (ErrorKind::UnexpectedEof, "unexpected end of file"),
    (ErrorKind::Unsupported, "unsupported I/O error"),
    (ErrorKind::OutOfMemory, "out of memory"),
    (ErrorKind::Uncategorized, "uncategorized"),
];

// A kind that prints another text, or that fails after it printed; an error that prints its kind's text in place of its
// own, or that ignores a writer's error.
#[test]
fn kinds_and_errors_print_their_texts(rt: HostRuntime) -> Result<(), Fail> {
    let alloc = rt.alloc();
    'kinds: for (kind, text) in &TEXTS {
        assert!(rt; is_display(alloc, kind, text)?);
        assert!(rt; is_display(alloc, &Error::from(*kind), text)?);
    }
    assert!(rt; is_display(alloc, &Error::new(ErrorKind::TimedOut, "late"), "late")?);
    Ok(())
}

fn hash_of(kind: ErrorKind) -> u64 {
    let mut state = DefaultHasher::new();
    kind.hash(&mut state);
    state.finish()
}

// A kind that is moved in the declaration, or compared by something else than its place.
#[test]
fn kinds_are_ordered_as_they_are_declared(rt: HostRuntime) {
    'kinds: for i in 1..21 {
        assert!(rt; TEXTS[i - 1].0 < TEXTS[i].0);
    }
}

// A hash of something else than the kind, or of nothing.
#[test]
fn equal_kinds_hash_equally_and_others_do_not(rt: HostRuntime) {
    'kinds: for i in 0..21 {
        let again = Error::new(TEXTS[i].0, "a text").kind();
        assert!(rt; hash_of(again) == hash_of(TEXTS[i].0));
        assert!(rt; hash_of(TEXTS[i].0) != hash_of(TEXTS[(i + 1) % 21].0));
    }
}

// Prints an error by the bound of the standard `Error`.
fn shown<E: std::error::Error>(alloc: Global, error: &E) -> Result<String, Fail> {
    Ok(format!(in alloc; "{error}")?)
}

// Worked example 18. An error that loses its text, that does not print its kind's, or that no function over errors takes.
#[test]
fn an_error_has_a_text_or_else_prints_its_kinds(rt: HostRuntime) -> Result<(), Fail> {
    'errors: for error in [
        Error::other("error!"),
        Error::new(ErrorKind::Other, "error!"),
    ] {
        assert!(rt; error.kind() == ErrorKind::Other);
        assert!(rt; shown(rt.alloc(), &error)?.as_str() == "error!");
        assert!(rt; error.into_inner() == Some("error!"));
    }
    let plain = Error::from(ErrorKind::NotFound);
    assert!(rt; plain.kind() == ErrorKind::NotFound);
    assert!(rt; shown(rt.alloc(), &plain)?.as_str() == "entity not found");
    assert!(rt; plain.into_inner().is_none());
    Ok(())
}

// A text that is lost when an error becomes one of the system's.
#[test]
fn an_error_of_the_systems_prints_its_text(rt: HostRuntime) -> Result<(), Fail> {
    let mut r = ToStd::new(Patient::new(b"a".as_slice(), 1));
    let refusal = io::Read::read(&mut r, &mut [0u8; 1]).err().ok_or("read")?;
    assert!(rt; is_display(rt.alloc(), &refusal, "no turns left")?);
    let mut p = Patient::new(b"a".as_slice(), 1);
    let fault = p.read(&mut [0u8; 1]).err().ok_or("read")?;
    assert!(rt; is_display(rt.alloc(), &p.reason(fault), "no turns left")?);
    Ok(())
}

// A failed `into_inner` that prints another error than its own.
#[test]
fn a_refusal_prints_its_error(rt: HostRuntime) -> Result<(), Fail> {
    let mut w = BufWriter::<Cursor<[u8; 0]>, 8>::new(Cursor::new([]));
    w.write_all(b"ab")?;
    let e = w.into_inner().err().ok_or("sent")?;
    assert!(rt; is_display(rt.alloc(), &e, "failed to write the buffered data")?);
    Ok(())
}
