//! A loop over `fill_buf` and `consume`. Each record is a length, in one byte, followed by that many bytes.
ghost use Rattle.examples.specs.Lengths.{SkipsRecords};

use no_std_io2::io::{BufRead, Result, skip};

/// Skips all remaining records. Each length that is taken spends a turn, so the loop ends.
///
/// # Errors
/// Returns the reader's first fault, and `UnexpectedEof` if the bytes end inside a record. Only a part of that record
/// may be skipped then, so the next byte may be no length.
pub fn pass_records<B: BufRead>(r: &mut B) -> Result<()>
    ensures { SkipsRecords B.Read r.old result r.new }
{
    'records: loop {
        match r.fill_buf() {
            Ok(lent) => {
                if lent.is_empty() {
                    return Ok(());
                }
                let mut left = u64::from(lent[0]);
                r.consume(1);
                skip(r, &mut left)?;
            }
            Err(e) if e.is_interrupted() => {}
            Err(e) => return Err(e),
        }
    }
}
