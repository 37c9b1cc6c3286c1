// A run with a write of no bytes.
use io_bench::{Act, Faulty, Op, run_writes};
use no_std_io2::io::{BufWriter, LineWriter, Write};
use std::alloc::Global;
use std::test::Fail;

// Returns a writer that still holds a part of a line: its device took `ab` of `abc\n`, and takes one byte next.
fn holding(alloc: Global) -> Result<LineWriter<Faulty<Vec<u8>>, 8>, Fail> {
    let acts = vec![in alloc; Act::Take(2), Act::Take(1)]?;
    let mut w = LineWriter::<_, 8>::new(Faulty::new(Vec::<u8>::new(alloc), acts));
    w.write(b"abc\nd")?;
    Ok(w)
}

// A run that passes over a `write_all` of no bytes, which sends a line that is held, or a buffer without room that does.
#[test]
fn a_write_of_no_bytes_is_handed_on(rt: HostRuntime) -> Result<(), Fail> {
    let mut w = holding(rt.alloc())?;
    assert!(rt; w.buffer() == b"c\n".as_slice());
    let mut replies = Vec::new(rt.alloc());
    let mut bare = BufWriter::<_, 0>::new(&mut w);
    run_writes(&mut bare, &[Op::WriteAll(b"")], &mut replies)?;
    drop(bare);
    assert!(rt; w.get_ref().get_ref().as_slice() == b"abc\n".as_slice());
    Ok(())
}

// The first of two sends the rest, and the next one nothing.
#[test]
fn each_write_of_no_bytes_is_made(rt: HostRuntime) -> Result<(), Fail> {
    let mut w = holding(rt.alloc())?;
    let mut replies = Vec::new(rt.alloc());
    let twice = [Op::WriteAll(b""), Op::WriteAll(b"")];
    run_writes(&mut w, &twice, &mut replies)?;
    assert!(rt; w.buffer().is_empty());
    assert!(rt; w.get_ref().get_ref().as_slice() == b"abc\n".as_slice());
    Ok(())
}
