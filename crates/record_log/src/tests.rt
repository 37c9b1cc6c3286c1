// Calls on a disk whose power is cut at each byte, once and twice, and what `open` and `Records` find then. `run_log` is
// proved for every disk and every list of calls; these would show a `Records` or an `open` that finds too little.

use crate::{Disk, RecordLog, Records, Step, open, reopen, run_log};
use no_std_io2::io::Cursor;
use std::alloc::{AllocError, Global};
use std::test::Fail;

// Five records, of 58 bytes.
const PAYLOADS: [&[u8]; 5] = [b"", b"one", b"twenty-two", b"3", b"four"];

// Writes all five records by a log, cuts its power, and returns its disk and how many records a `sync` confirmed.
fn write_five(log: RecordLog<Disk, 32>) -> (Disk, usize) {
    let [a, b, c, d, e] = PAYLOADS;
    let steps = [
        Step::Append(a),
        Step::Append(b),
        Step::Sync,
        Step::Append(c),
        Step::Append(d),
        Step::Sync,
        Step::Append(e),
        Step::Sync,
    ];
    let mut done = [false; 8];
    let mut log = log;
    run_log(&mut log, &steps, &mut done);
    let confirmed = match (done[2], done[5], done[7]) {
        (_, _, true) => 5,
        (_, true, _) => 4,
        (true, _, _) => 2,
        _ => 0,
    };
    (log.cut(), confirmed)
}

// Returns how many records a content has, if they are the first of these payloads.
fn count(content: &[u8], payloads: &[&[u8]]) -> Option<usize> {
    let mut records = Records::new(content);
    let mut count = 0usize;
    'payloads: for payload in payloads {
        match records.next() {
            Some(record) if record.payload == *payload => count = count.saturating_add(1),
            Some(_) => return None,
            None => return Some(count),
        }
    }
    match records.next() {
        Some(_) => None,
        None => Some(count),
    }
}

// Cuts the power twice, at these bytes, and returns whether both times what is left is right.
fn is_right(
    alloc: Global,
    content: &[u8],
    first: usize,
    second: usize,
) -> Result<bool, AllocError> {
    let mut disk = Vec::new(alloc);
    disk.extend_from_slice(content)?;
    let (once, confirmed) = write_five(RecordLog::new(Disk::new(disk, 0, first)));
    let Some(kept) = count(once.content(), &PAYLOADS) else {
        return Ok(false);
    };
    let Ok(log) = reopen(RecordLog::new(once), second) else {
        return Ok(false);
    };
    let (twice, more) = write_five(log);
    let mut wanted = Vec::new(alloc);
    wanted.extend_from_slice(&PAYLOADS[..kept.min(5)])?;
    wanted.extend_from_slice(&PAYLOADS)?;
    let Some(all) = count(twice.content(), &wanted) else {
        return Ok(false);
    };
    Ok(confirmed <= kept && kept <= 5 && more <= all.saturating_sub(kept) && kept <= all)
}

// Counts the pairs of cuts at which what is left is right: one at this byte, and one at each of the next 60.
fn right_after(alloc: Global, content: &[u8], first: usize) -> Result<usize, AllocError> {
    let mut right = 0usize;
    'cuts: for second in 0..60 {
        if is_right(alloc, content, first, second)? {
            right = right.saturating_add(1);
        }
    }
    Ok(right)
}

// Counts them for each first cut.
fn right_in_all(alloc: Global, content: &[u8]) -> Result<usize, AllocError> {
    let mut right = 0usize;
    'cuts: for first in 0..60 {
        right = right.saturating_add(right_after(alloc, content, first)?);
    }
    Ok(right)
}

// A log that loses a confirmed record, or has a part of one, after one cut or two, on a disk of zeros.
#[test]
fn a_log_survives_two_cuts_at_each_byte(rt: HostRuntime) -> Result<(), Fail> {
    assert!(rt; right_in_all(rt.alloc(), &[0; 120])? == 3600);
    Ok(())
}

// The same on a disk that had other bytes, and on one that is full before all is written.
#[test]
fn also_over_old_bytes_and_on_a_full_disk(rt: HostRuntime) -> Result<(), Fail> {
    assert!(rt; right_in_all(rt.alloc(), &[0xff; 120])? == 3600);
    assert!(rt; right_in_all(rt.alloc(), &[0; 45])? == 3600);
    Ok(())
}

// A disk of zeros that has a record.
#[test]
fn zeros_have_no_record(rt: HostRuntime) -> Result<(), Fail> {
    assert!(rt; count(&[0; 64], &PAYLOADS) == Some(0));
    let opened = open(&mut Cursor::new([0; 64].as_slice()), &mut [0; 3])?;
    assert!(rt; opened.end == 0 && opened.torn == 64);
    Ok(())
}
