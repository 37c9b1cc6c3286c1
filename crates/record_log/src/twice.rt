// A log whose power is cut twice.
ghost use Rattle.std.specs.Prelude.{◌≡◌, [], ℕ, List, length, IsOk, IfOk, IsOkAnd};
ghost use Rattle.record_log.specs.{Records.{HasRecords}, Disk.{disk_content, disk_place}, Log.{log_inner}};
ghost use Rattle.record_log.specs.Cuts.{StandsAtEnd, SurvivesTwice, outcome};

use crate::cuts::{Step, run_log};
use crate::disk::Disk;
use crate::log::RecordLog;
use crate::opening::open;
use no_std_io2::io::{Cursor, Result};

/// Cuts the power of a log, and opens the log again on what its disk then has. What was held is lost; `left` bytes fit
/// before the next cut. The log stands again where `run_log` begins: behind the records that are there.
///
/// # Errors
/// None: a disk can be read.
pub fn reopen<const S: usize>(log: RecordLog<Disk, S>, left: usize) -> Result<RecordLog<Disk, S>>
    ensures opens { IsOk result }
    ensures stands { (payloads : List (List ℕ)) (rest : List ℕ) → HasRecords (disk_content (log_inner log.entry)) payloads rest
        → IfOk result (λ l. StandsAtEnd disk_content disk_place payloads rest l) }
{
    let disk = log.cut();
    let mut room = [0u8; 64];
    let end = open(&mut Cursor::new(disk.content()), &mut room)?.end as usize;
    Ok(RecordLog::new(disk.restart(end, left)))
}

/// Makes calls of a log, cuts its power, opens it again, and makes others. `left` bytes fit before the second cut.
///
/// The disk then has exactly the records that were there; those of the first calls that a `sync` confirmed, and none or
/// some of their others; and then the same of the second calls. Each keeps its place in the order.
///
/// # Errors
/// None: a disk can be read.
pub fn run_twice<const S: usize>(
    log: RecordLog<Disk, S>,
    first: &[Step<'_>],
    first_done: &mut [bool],
    left: usize,
    second: &[Step<'_>],
    second_done: &mut [bool],
) -> Result<RecordLog<Disk, S>>
    requires first { length first_done.old ≡ length first.now }
    requires second { length second_done.old ≡ length second.now }
    ensures survives { (before : List (List ℕ)) (tail : List ℕ) → StandsAtEnd disk_content disk_place before tail log.entry
        → IsOkAnd result (λ l. SurvivesTwice before tail (outcome ([], []) first.now first_done.new)
        (outcome ([], []) second.now second_done.new) (disk_content (log_inner l))) }
{
    let mut log = log;
    run_log(&mut log, first, first_done);
    let mut log = reopen(log, left)?;
    run_log(&mut log, second, second_done);
    Ok(log)
}
