// A program's way through its files, over devices of `io_bench` in place of the files and of standard output.
use cli::{FileFault, PerFile, each_file};
use io_bench::{Act, Event, Faulty, Feed};
use no_std_io2::io::{CopyError, Error, ErrorKind, copy_sided};
use std::alloc::Global;
use std::io;
use std::test::Fail;

// Inputs whose names are their numbers, where they go, and the names of which was told.
#[derive(Drop)]
struct Run {
    inputs: Vec<Feed>,
    out: Faulty<Vec<u8>>,
    told: Vec<u8>,
}

impl PerFile for Run {
    type Reason = Error;

    ghost may_try = { λ _ _ _ _. Unit {0} };

    ghost may_tell_of = { λ _ _ _ _. Unit {0} };

    fn try_file(&mut self, name: &str) -> Result<(), FileFault<Error>> {
        let at = name.parse::<usize>().unwrap_or(usize::MAX);
        if at >= self.inputs.len() {
            return Err(FileFault::File(Error::from(ErrorKind::NotFound)));
        }
        match copy_sided::<_, _, 4>(&mut self.inputs[at], &mut self.out) {
            Ok(_) => Ok(()),
            Err(CopyError::Read(e)) => Err(FileFault::File(e)),
            Err(CopyError::Write(e)) => Err(FileFault::Output(e)),
        }
    }

    fn tell_of(&mut self, name: &str, _why: Error) {
        let _ = self.told.extend_from_slice(name.as_bytes());
    }
}

// Returns an input that gives these bytes, fails once if that is asked for, and then gives one more byte.
fn input(alloc: Global, bytes: &[u8], fails: bool) -> io::Result<Feed> {
    let mut events = Vec::new(alloc);
    'bytes: for byte in bytes {
        events.push(Event::Byte(*byte))?;
    }
    if fails {
        events.push(Event::Fail(ErrorKind::PermissionDenied))?;
        events.push(Event::Byte(b'!'))?;
    }
    Ok(Feed::new(events, 3))
}

// Returns a run of three inputs, of which the second fails, to an output that does these acts.
fn make_run(alloc: Global, acts: Vec<Act>) -> io::Result<Run> {
    let mut inputs = Vec::new(alloc);
    inputs.push(input(alloc, b"abcdef", false)?)?;
    inputs.push(input(alloc, b"gh", true)?)?;
    inputs.push(input(alloc, b"ij", false)?)?;
    Ok(Run {
        inputs,
        out: Faulty::new(Vec::new(alloc), acts),
        told: Vec::new(alloc),
    })
}

fn names(alloc: Global) -> io::Result<Vec<String>> {
    let mut names = Vec::new(alloc);
    'names: for name in ["0", "1", "7", "2"] {
        names.push(String::from_str(alloc, name)?)?;
    }
    Ok(names)
}

// A bad input that stops the run, of which nothing is told, or after which the run says that none failed.
#[test]
fn a_bad_input_is_told_and_the_next_one_follows(rt: HostRuntime) -> Result<(), Fail> {
    let mut work = make_run(rt.alloc(), Vec::new(rt.alloc()))?;
    let names = names(rt.alloc())?;
    assert!(rt; matches!(each_file(&mut work, names.as_slice()), Ok(false)));
    assert!(rt; work.out.get_ref().as_slice() == b"abcdefghij".as_slice());
    assert!(rt; work.told.as_slice() == b"17".as_slice());
    Ok(())
}

// A bad output that is told as a bad input, or after which the next input is read.
#[test]
fn a_bad_output_stops_the_run(rt: HostRuntime) -> Result<(), Fail> {
    let acts = vec![in rt.alloc();
        Act::Take(3),
        Act::Take(3),
        Act::Fail(ErrorKind::WouldBlock),
    ]?;
    let mut work = make_run(rt.alloc(), acts)?;
    let names = names(rt.alloc())?;
    let e = each_file(&mut work, names.as_slice())
        .err()
        .ok_or("the output failed")?;
    assert!(rt; e.kind() == ErrorKind::WouldBlock);
    assert!(rt; work.out.get_ref().as_slice() == b"abcdef".as_slice());
    assert!(rt; work.told.is_empty());
    let third = work.inputs.as_slice().get(2).ok_or("the inputs are gone")?;
    assert!(rt; third.left().len() == 2);
    Ok(())
}
