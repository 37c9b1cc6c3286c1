// What the `Debug` of each type that std also has prints, and of a tally, as Rust's derived ones do. A derived one is tried
// on one line, and one that is written here on several too.
use crate::errors::Narrow;
use io_bench::{Act, Faulty, Sink, Tally};
use no_std_io2::io::{
    BufRead, BufReader, BufWriter, Cursor, Error, ErrorKind, LineWriter, Read, SeekFrom, Write,
};
use std::alloc::Global;
use std::fmt::{Debug, Write as _};
use std::test::Fail;

// Returns whether a value prints this on one line, and reports the error of a writer without room for it.
fn prints<T: Debug>(alloc: Global, value: &T, short: &str) -> Result<bool, Fail> {
    let text = format!(in alloc; "{value:?}")?;
    let mut is_told = true;
    'rooms: for left in 0..short.len() {
        is_told = is_told && write!(&mut Narrow { left }, "{value:?}").is_err();
    }
    Ok(is_told && text.as_str() == short)
}

// Returns whether a value prints this on one line, and that on several.
fn prints_both<T: Debug>(alloc: Global, value: &T, short: &str, long: &str) -> Result<bool, Fail> {
    let lines = format!(in alloc; "{value:#?}")?;
    Ok(prints(alloc, value, short)? && lines.as_str() == long)
}

// A text in place of the kind's name, or none. A field that is left out or has another name; a target of a seek under
// another name, or without its number.
#[test]
fn derived_ones_print_their_fields(rt: HostRuntime) -> Result<(), Fail> {
    let alloc = rt.alloc();
    let error = Error::new(ErrorKind::TimedOut, "late");
    assert!(rt; prints(alloc, &error, "Custom { kind: TimedOut, error: \"late\" }")?);
    assert!(rt; prints(alloc, &Error::from(ErrorKind::NotFound), "Kind(NotFound)")?);
    assert!(rt; prints(alloc, &Cursor::new([1u8]), "Cursor { inner: [1], pos: 0 }")?);
    let places = [SeekFrom::Start(3), SeekFrom::End(-3), SeekFrom::Current(-3)];
    assert!(rt; prints(alloc, &places, "[Start(3), End(-3), Current(-3)]")?);
    let text = b"A".as_slice();
    let chain = text.chain(b"".as_slice());
    assert!(rt;
        prints(
            alloc,
            &chain,
            "Chain { first: [65], second: [], done_first: false }"
        )?
    );
    assert!(rt;
        prints(
            alloc,
            &text.take(2),
            "Take { inner: [65], len: 2, limit: 2 }"
        )?
    );
    assert!(rt; prints(alloc, &text.bytes(), "Bytes { inner: [65] }")?);
    Ok(())
}

// A reader that prints its capacity in place of the number of held bytes, or that number cut to
// a byte.
#[test]
fn a_buffered_reader_prints_how_much_it_holds(rt: HostRuntime) -> Result<(), Fail> {
    let alloc = rt.alloc();
    let mut r = BufReader::<&[u8], 4>::new(b"abcd");
    let _lent = r.fill_buf()?;
    r.consume(1);
    let short = "BufReader { reader: [], buffer: 3/4 }";
    let long = "BufReader {\n    reader: [],\n    buffer: 3/4,\n}";
    assert!(rt; prints_both(alloc, &r, short, long)?);
    let long = [b'a'; 300];
    let mut r = BufReader::<&[u8], 300>::new(&long);
    let _lent = r.fill_buf()?;
    assert!(rt; prints(alloc, &r, "BufReader { reader: [], buffer: 300/300 }")?);
    Ok(())
}

// A writer that prints such a wrong number.
#[test]
fn a_buffered_writer_prints_how_much_it_holds(rt: HostRuntime) -> Result<(), Fail> {
    let alloc = rt.alloc();
    let mut w = BufWriter::<Sink, 300>::new(Sink::new());
    w.write_all(&[7; 270])?;
    let short = "BufWriter { writer: Sink, buffer: 270/300 }";
    let long = "BufWriter {\n    writer: Sink,\n    buffer: 270/300,\n}";
    assert!(rt; prints_both(alloc, &w, short, long)?);
    Ok(())
}

// A held line of which not each byte is counted.
#[test]
fn a_line_writer_prints_how_much_it_holds(rt: HostRuntime) -> Result<(), Fail> {
    let alloc = rt.alloc();
    let acts = vec![in alloc; Act::Zero]?;
    let mut w = LineWriter::<Faulty<Sink>, 8>::new(Faulty::new(Sink::new(), acts));
    w.write_all(b"ab")?;
    assert!(rt; w.write_all(b"c\n").is_err());
    let short = "LineWriter { writer: Faulty { inner: Sink, acts: [Zero], at: 1 }, buffer: 4/8 }";
    let long = concat!(
        "LineWriter {\n    writer: Faulty {\n        inner: Sink,\n        acts: [\n            Zero,\n",
        "        ],\n        at: 1,\n    },\n    buffer: 4/8,\n}",
    );
    assert!(rt; prints_both(alloc, &w, short, long)?);
    Ok(())
}

// A failed `into_inner` that prints no writer, or another error than its own.
#[test]
fn a_refusal_prints_its_writer_and_its_error(rt: HostRuntime) -> Result<(), Fail> {
    let alloc = rt.alloc();
    let acts = vec![in alloc; Act::Fail(ErrorKind::BrokenPipe)]?;
    let mut w = BufWriter::<Faulty<Sink>, 8>::new(Faulty::new(Sink::new(), acts));
    w.write_all(b"ab")?;
    let e = w.into_inner().err().ok_or("sent")?;
    let short = concat!(
        "IntoInnerError { writer: BufWriter { writer: Faulty { inner: Sink, acts: [Fail(BrokenPipe)], at: 1 }, ",
        "buffer: 2/8 }, error: Kind(BrokenPipe) }",
    );
    let long = concat!(
        "IntoInnerError {\n    writer: BufWriter {\n        writer: Faulty {\n            inner: Sink,\n",
        "            acts: [\n                Fail(\n                    BrokenPipe,\n                ),\n            ],\n",
        "            at: 1,\n        },\n        buffer: 2/8,\n    },\n    error: Kind(\n        BrokenPipe,\n    ),\n}",
    );
    assert!(rt; prints_both(alloc, &e, short, long)?);
    Ok(())
}

// Counts that are not shown, or that are swapped.
#[test]
fn a_tally_prints_its_counts(rt: HostRuntime) -> Result<(), Fail> {
    let mut r = Tally::new(b"ab".as_slice());
    r.read_exact(&mut [0; 2])?;
    let short = "Tally { inner: [], writes: 0, reads: 1 }";
    let long = "Tally {\n    inner: [],\n    writes: 0,\n    reads: 1,\n}";
    assert!(rt; prints_both(rt.alloc(), &r, short, long)?);
    Ok(())
}
