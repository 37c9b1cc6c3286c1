// Where a log ends.
ghost use Rattle.std.specs.{Prelude.{◌≡◌, ◌+◌, ◌<◌, ◌^◌, ℕ, List, length, Some, IsOk, IfOk, IfSome, IsSomeAnd}, Bool.{OnTrue}};
ghost use Rattle.no_std_io2.specs.{Events.{events_of}, Takes.{tells, to_come}};
ghost use Rattle.record_log.specs.Opening.{FetchesSome, FetchesAll, FetchesRecord, how_ended, GivesPiece, AddsPiece, PassesRecord};
ghost use Rattle.record_log.specs.Opening.{PassesRecords, Opens, OpensBy};

use crate::records::{HEADER, add_bytes, header, start, told_len};
use no_std_io2::io::{Read, Result, Seek, SeekFrom};

/// What [`open`] found.
#[derive(Clone, Copy, Debug, PartialEq, Eq, Drop)]
pub struct Opened {
    /// The number of bytes of the whole records at the front, which is where the log goes on.
    pub end: u64,
    /// The number of bytes behind them.
    pub torn: u64,
}

// Fills `piece`, and returns whether there were enough bytes.
fn read_piece<R: Read>(r: &mut R, piece: &mut [u8]) -> Result<bool>
    ensures fetches { FetchesSome R.Read r.old result r.new }
    ensures known { (bytes : List ℕ) → to_come (tells R.Read r.old) ≡ Some (events_of bytes)
        → IsOk result × IfOk result (λ all. GivesPiece bytes all piece.new (to_come (tells R.Read r.new))) }
    ensures spends { IfOk result (λ all. OnTrue all (0 < length piece.old → R.turns r.new < R.turns r.old)) }
{
    let mut filled = 0;
    r.read_full(piece, &mut filled)?;
    if filled < piece.len() {
        return Ok(false);
    }
    Ok(true)
}

// The same, and returns the check after these bytes if there were enough.
fn add_piece<R: Read>(r: &mut R, piece: &mut [u8], check: u32) -> Result<Option<u32>>
    ensures fetches { FetchesSome R.Read r.old (how_ended result) r.new }
    ensures known { (bytes : List ℕ) → to_come (tells R.Read r.old) ≡ Some (events_of bytes)
        → IsOk result × IfOk result (λ o. AddsPiece bytes (length piece.old) check o (to_come (tells R.Read r.new))) }
{
    if !read_piece(r, piece)? {
        return Ok(None);
    }
    Ok(Some(add_bytes(check, piece)))
}

// Passes a payload of this length piece by piece, and returns the check after it if there were enough bytes.
fn pass_payload<R: Read>(r: &mut R, room: &mut [u8], len: u32, check: u32) -> Result<Option<u32>>
    requires some_room { 0 < length room.old }
    ensures fetches { FetchesSome R.Read r.old (how_ended result) r.new }
    ensures known { (bytes : List ℕ) → to_come (tells R.Read r.old) ≡ Some (events_of bytes)
        → IsOk result × IfOk result (λ o. AddsPiece bytes len check o (to_come (tells R.Read r.new))) }
{
    let mut left = len as usize;
    let mut sum = check;
    'pieces: while left > 0 {
        let n = room.len().min(left);
        let Some(next) = add_piece(r, &mut room[..n], sum)? else {
            return Ok(None);
        };
        sum = next;
        left -= n;
    }
    Ok(Some(sum))
}

// Passes the next record, if one stands whole there, and returns its length with its header.
fn pass_record<R: Read>(r: &mut R, room: &mut [u8]) -> Result<Option<u64>>
    requires some_room { 0 < length room.old }
    ensures fetches { FetchesRecord R.Read r.old result r.new }
    ensures known { (bytes : List ℕ) → to_come (tells R.Read r.old) ≡ Some (events_of bytes)
        → IsOk result × IfOk result (λ o. PassesRecord bytes o (to_come (tells R.Read r.new))) }
    ensures spends { IfOk result (λ o. IfSome o (λ _. R.turns r.new < R.turns r.old)) }
{
    let mut head = [0u8; HEADER];
    if !read_piece(r, &mut head)? {
        return Ok(None);
    }
    let len = told_len(&head);
    let Some(check) = pass_payload(r, room, len, start(len))? else {
        return Ok(None);
    };
    if head != header(len, check) {
        return Ok(None);
    }
    Ok(Some(HEADER as u64 + u64::from(len)))
}

// Passes all whole records that come next, and returns the number of their bytes.
fn pass_records<R: Read>(r: &mut R, room: &mut [u8]) -> Result<u64>
    requires some_room { 0 < length room.old }
    ensures fetches { FetchesAll R.Read r.old result r.new }
    ensures known { (bytes : List ℕ) → to_come (tells R.Read r.old) ≡ Some (events_of bytes) → length bytes < 2 ^ 64
        → IsOk result × IfOk result (PassesRecords bytes) }
{
    let mut end = 0u64;
    'records: while let Some(n) = pass_record(r, room)? {
        end = end.saturating_add(n);
    }
    Ok(end)
}

/// Finds the whole records at the front of a file, and stands behind them, where a [`RecordLog`](crate::RecordLog)
/// over this file goes on. It reads the file once, through `room`, which has to have at least one byte.
///
/// Bytes behind the records are torn: of a record that a power cut cut short, or old ones. They stay, and the next
/// records go over them. A file of the system is best cut there.
///
/// # Errors
/// Returns the fault of a read or a seek. The file then stands somewhere.
pub fn open<F: Read + Seek>(file: &mut F, room: &mut [u8]) -> Result<Opened>
    requires some_room { 0 < length room.old }
    ensures opens { IfSome (F.store file.old) (λ s. IsSomeAnd (F.store file.new) (λ t. (t.content ≡ s.content)
        × IsOk result × IfOk result (λ o. Opens s.content o.end o.torn × (t.position ≡ o.end)))) }
    // Of any file it makes these calls, and no others. A fault is no end of the records.
    ensures calls { OpensBy F.Seek F.Read file.old result file.new }
{
    file.seek(SeekFrom::Start(0))?;
    let end = pass_records(file, room)?;
    let len = file.seek(SeekFrom::End(0))?;
    file.seek(SeekFrom::Start(end))?;
    let torn = len.saturating_sub(end);
    Ok(Opened { end, torn })
}
