// The archive of `members.rows` over devices that fail, which is compared with the archive that GNU tar made of the same
// members, `gnu.tar`. A row has a kind, a mode in octal digits, a time, a size, a name, and the target of a link. The bytes
// of a file are `x`.
//
// And archives of files that fail once in the middle and then give bytes again.
use io_bench::{Act, Event, Faulty, Feed, Tally};
use no_std_io2::io::{CopyError, ErrorKind, repeat};
use std::alloc::Global;
use std::{fs, io};
use tar::{Builder, HeaderBlock, Metadata};

// The archive over a device that fails.
type Archive = Builder<Faulty<Vec<u8>>, 1536>;

// The size of a file that fails.
const SIZE: usize = 1000;

// The number of devices, each with other acts, and the most tries of a call.
const DEVICES: usize = 40;

const TRIES: usize = 64;

// Returns the acts of a device: writes that take a part, faults, and writes that take nothing.
fn acts(alloc: Global, device: usize) -> io::Result<Vec<Act>> {
    let mut acts = Vec::new(alloc);
    'acts: for i in 0..60usize {
        acts.push(match (i.wrapping_add(device)) % 3 {
            0 => Act::Take(i.wrapping_mul(61).wrapping_add(device.wrapping_mul(97)) % 700),
            1 => Act::Fail(ErrorKind::WouldBlock),
            _ => Act::Zero,
        })?;
    }
    Ok(acts)
}

// Returns the header of a row, and the size of its file.
fn header_of(row: &str) -> Option<HeaderBlock> {
    let mut words = row.split(' ');
    let kind = words.next()?;
    let mode = u32::from_str_radix(words.next()?, 8).ok()?;
    let mtime = words.next()?.parse::<u64>().ok()?;
    let size = words.next()?.parse::<u64>().ok()?;
    let name = words.next()?.as_bytes();
    let metadata = Metadata { mode, mtime };
    match kind {
        "file" => HeaderBlock::file(name, size, metadata).ok(),
        "directory" => HeaderBlock::directory(name, metadata).ok(),
        "link" => HeaderBlock::link(name, words.next()?.as_bytes(), metadata).ok(),
        "symlink" => HeaderBlock::symlink(name, words.next()?.as_bytes(), metadata).ok(),
        _ => None,
    }
}

// Appends a header, and tries again after each fault. Returns how many tries failed.
fn put_header(archive: &mut Archive, header: &HeaderBlock) -> Option<usize> {
    'tries: for failed in 0..TRIES {
        if archive.append_header(header).is_ok() {
            return Some(failed);
        }
    }
    None
}

// Appends the bytes of a file, and tries again after each fault. Returns how many tries failed, and how many reads were
// made of the bytes: one for each time that the buffer was filled, and one at the end.
fn put_body(archive: &mut Archive) -> Option<(usize, u64)> {
    let mut body = Tally::new(repeat(b'x', archive.body_left()));
    'tries: for failed in 0..TRIES {
        if archive.append_body(&mut body).is_ok() {
            return Some((failed, body.reads()));
        }
    }
    None
}

// Ends the archive, and tries again after each fault. Returns how many tries failed.
fn put_end(archive: &mut Archive) -> Option<usize> {
    'tries: for failed in 0..TRIES {
        if archive.finish().is_ok() {
            return Some(failed);
        }
    }
    None
}

// Makes the archive of these rows. Returns how many tries failed, and how many reads were made of bodies.
fn make(archive: &mut Archive, rows: &str) -> Option<(usize, u64)> {
    let mut failed = 0usize;
    let mut reads = 0u64;
    'rows: for row in rows.lines() {
        let header = header_of(row)?;
        failed = failed.wrapping_add(put_header(archive, &header)?);
        let (again, more) = put_body(archive)?;
        failed = failed.wrapping_add(again);
        reads = reads.wrapping_add(more);
    }
    Some((failed.wrapping_add(put_end(archive)?), reads))
}

// Returns a file that gives `len` bytes `a`, then fails once, and then gives as many bytes `b` as the file has.
fn failing_file(alloc: Global, len: usize) -> io::Result<Feed> {
    let mut events = Vec::new(alloc);
    events.resize(len, Event::Byte(b'a'))?;
    events.push(Event::Fail(ErrorKind::PermissionDenied))?;
    events.resize(len.saturating_add(1 + SIZE), Event::Byte(b'b'))?;
    Ok(Feed::new(events, 100))
}

// Appends such a file, on a device that does these acts. Returns the result, and the archive after its end.
fn fill_up(
    alloc: Global,
    len: usize,
    acts: Vec<Act>,
) -> io::Result<(Result<(), CopyError>, Archive)> {
    let mut body = failing_file(alloc, len)?;
    let mut archive = Archive::new(Faulty::new(Vec::new(alloc), acts));
    let metadata = Metadata {
        mode: 0o644,
        mtime: 0,
    };
    if let Ok(header) = HeaderBlock::file(b"f", SIZE as u64, metadata) {
        let _ = archive.append_header(&header);
    }
    let filled = archive.append_filled(&mut body);
    let _ = archive.finish();
    Ok((filled, archive))
}

// Returns whether an archive has `len` bytes `a` behind its first header, then zeros, and the length of one such file.
fn is_filled(archive: &[u8], len: usize) -> bool {
    let mut is = archive.len() == 512 + 1024 + 1024;
    'bytes: for (at, byte) in archive.iter().enumerate() {
        if at >= 512 {
            let wanted = if at - 512 < len { b'a' } else { 0 };
            is = is && *byte == wanted;
        }
    }
    is
}

// Prints how many archives of files that fail are filled with zeros, and how often the error is the file's and not the
// device's; and that of one whose device fails.
fn play_failing(rt: &HostRuntime) -> io::Result<()> {
    let alloc = rt.alloc();
    let mut filled = 0u32;
    let mut told = 0u32;
    'lengths: for len in [0, 1, 511, 512, 513, 999] {
        let (reply, archive) = fill_up(alloc, len, Vec::new(alloc))?;
        if is_filled(archive.get_ref().get_ref().as_slice(), len) {
            filled = filled.wrapping_add(1);
        }
        if matches!(reply, Err(CopyError::Read(e)) if e.kind() == ErrorKind::PermissionDenied) {
            told = told.wrapping_add(1);
        }
    }
    println!(rt; "{filled} archives of files that fail are filled with zeros")?;
    println!(rt; "{told} errors are those of the files")?;
    let (reply, archive) = fill_up(
        alloc,
        600,
        vec![in alloc; Act::Fail(ErrorKind::WouldBlock)]?,
    )?;
    let left = archive.body_left();
    let is_device = matches!(reply, Err(CopyError::Write(_)));
    println!(rt; "a device that fails is told: {is_device}, and {left} bytes are to come")
}

/// Makes the archive on each device, and prints how many are the wanted one.
pub fn play(rt: &HostRuntime) -> io::Result<()> {
    let rows = fs::read_to_string(rt, "members.rows")?;
    let wanted = fs::read(rt, "gnu.tar")?;
    let mut same = 0u32;
    let mut faulty = 0u32;
    let mut most = 0u64;
    'devices: for device in 0..DEVICES {
        let bytes = Vec::<u8>::new(rt.alloc());
        let mut archive = Archive::new(Faulty::new(bytes, acts(rt.alloc(), device)?));
        if let Some((failed, reads)) = make(&mut archive, rows.as_str()) {
            most = most.max(reads);
            if archive.get_ref().get_ref().as_slice() == wanted.as_slice() {
                same = same.wrapping_add(1);
            }
            if failed > 20 {
                faulty = faulty.wrapping_add(1);
            }
        }
    }
    println!(rt; "{same} archives are that of GNU tar")?;
    println!(rt; "{faulty} of them after more than 20 faults")?;
    println!(rt; "at most {most} reads of the bodies of one")?;
    play_failing(rt)
}
