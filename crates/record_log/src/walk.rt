// The records of a content, one after another.
ghost use Rattle.std.specs.Prelude.{◌≡◌, ◌+◌, ◌<◌, ◌^◌, ◌++◌, length, IfSome, IfNone};
ghost use Rattle.record_log.specs.Records.{record_of, HasNoRecord};

use crate::records::{HEADER, first_record};

/// A record in a content.
#[derive(Clone, Copy, Debug, Drop)]
pub struct Record<'a> {
    /// Where it begins, in bytes from the start.
    pub position: usize,
    /// Its payload.
    pub payload: &'a [u8],
}

/// The records at the front of a content, one after another, up to the first bytes that are no whole record.
#[derive(Clone, Copy, Debug, Drop)]
pub struct Records<'a> {
    rest: &'a [u8],
    position: usize,
    ghost fits: { position + length rest.now < 2 ^ 64 },
}

impl<'a> Records<'a> {
    ghost use Rattle.record_log.specs.Walk.{records_rest, records_position};

    /// Makes an iterator of the records of `content`.
    pub fn new(content: &'a [u8]) -> Records<'a>
        ensures rest { records_rest result ≡ content.now }
        ensures position { records_position result ≡ 0 }
    {
        Records {
            rest: content,
            position: 0,
        }
    }

    /// Returns the bytes behind the records that were returned.
    pub fn rest(&self) -> &'a [u8]
        ensures { result.now ≡ records_rest self.now }
    {
        self.rest
    }

    /// Returns the next record, if one stands whole at the front of the bytes that are left.
    pub fn next(&mut self) -> Option<Record<'a>>
        ensures some { IfSome result (λ r. (records_rest self.old ≡ record_of r.payload.now ++ records_rest self.new)
            × (length r.payload.now < 2 ^ 32) × (r.position ≡ records_position self.old)) }
        ensures position { IfSome result (λ r. records_position self.new ≡ records_position self.old + 8 + length r.payload.now) }
        ensures none { IfNone result (HasNoRecord (records_rest self.old) × (self.new ≡ self.old)) }
    {
        let payload = first_record(self.rest)?;
        let record = Record {
            position: self.position,
            payload,
        };
        let len = HEADER + payload.len();
        self.rest = &self.rest[len..];
        self.position += len;
        Some(record)
    }
}
