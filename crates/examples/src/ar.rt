//! A reader of `ar` archives. As in Rust's crate `ar`, [`Archive::next_entry`] hands out an [`Entry`] that lends the archive.
//!
//! An archive is `!<arch>\n`, and then for each entry a header of 60 bytes, its content, and a newline if the length of
//! the content is odd.
ghost use Rattle.std.specs.Prelude.{◌≡◌, ◌≤◌, length, IfOk, IfErr, IfSome, Ok, Some};
ghost use Rattle.no_std_io2.specs.{Calls.{PartMay}, Takes.{tells}, inner.Take.{limit_events, limit_held, limit_inner, LimitMay}};
ghost use Rattle.examples.specs.Ar.{Begins, ReachesHeader, NextHeader, ReadsContent, ReadsNext, Refuses, Says, decimal_field};

use no_std_io2::io::{BufRead, Error, ErrorKind, Read, Result, Stored, Take, skip};
use std::alloc::Global;

// The newline behind a content of odd length, and a header.
const HEAD: usize = 61;

/// What a header says of its entry.
#[derive(Debug, Drop)]
pub struct Header {
    /// The name, with spaces behind it.
    pub name: [u8; 16],
    /// The length of the content, in bytes.
    pub size: u64,
}

/// A reader of the entries of an archive, over any `BufRead`.
#[derive(Drop)]
pub struct Archive<R> {
    // The reader. Its limit is what is left of the current entry's content.
    content: Take<R>,
    // The newline behind the content, or a byte in its place, and then the next header, as far as they were read.
    head: [u8; HEAD],
    filled: usize,
}

/// An entry: its header, and a reader of its content. It lends the archive.
#[derive(Drop)]
pub struct Entry<'a, R> {
    /// What its header says.
    pub header: Header,
    archive: &'a mut Archive<R>,
}

impl<R: Stored> Stored for Entry<'_, R> {}

impl<R: Read> Read for Entry<'_, R> {
    ghost turns = { λ e. R.turns (limit_inner e.archive.now.content) };

    ghost events = { λ e. limit_events (tells R.Read) e.archive.now.content };

    ghost held = { λ e. limit_held R.held e.archive.now.content };

    ghost may = { PartMay (LimitMay R.Read) (λ e. e.archive.now.content)
        (λ e t. record e { archive = record e.archive { now = record e.archive.now { content = t } } }) };

    fn read(&mut self, buf: &mut [u8]) -> Result<usize> {
        self.archive.content.read(buf)
    }
}

// Returns the number of a field: decimal digits, and then spaces.
fn decimal(field: &[u8]) -> Option<u64>
    requires { length field.now ≤ 10 }
    ensures { result ≡ decimal_field field.now }
{
    let mut n = 0u64;
    'digits: for byte in field {
        let byte = *byte;
        if byte < b'0' || b'9' < byte {
            return if byte == b' ' { Some(n) } else { None };
        }
        n = n * 10 + u64::from(byte - b'0');
    }
    Some(n)
}

impl Header {
    // Reads the header behind a newline, or behind a byte in its place.
    fn of_head(head: &[u8]) -> Result<Header>
        requires { length head.now ≡ 61 }
        ensures said { IfOk result (Says head.now) }
        ensures refused { IfErr result (Refuses head.now) }
    {
        if &head[59..61] != b"`\n".as_slice() {
            return Err(Error::new(ErrorKind::InvalidData, "a header has no end"));
        }
        let Some(size) = decimal(&head[49..59]) else {
            return Err(Error::new(ErrorKind::InvalidData, "the size of an entry is no number"));
        };
        let mut name = [0u8; 16];
        name.copy_from_slice(&head[1..17]);
        Ok(Header { name, size })
    }
}

impl<R: BufRead> Archive<R> {
    /// Makes an archive. The reader stands behind `!<arch>\n`.
    pub fn new(reader: R) -> Archive<R>
        ensures { Begins reader result }
    {
        Archive {
            content: reader.take(0),
            head: [b'\n'; HEAD],
            filled: 1,
        }
    }

    // Skips the rest of the content, and reads the rest of the next header.
    fn reach_header(&mut self) -> Result<()>
        ensures { ReachesHeader R.Read self.old result self.new }
    {
        let mut left = self.content.limit();
        let reply = skip(self.content.get_mut(), &mut left);
        self.content.set_limit(left);
        reply?;
        let reader = self.content.get_mut();
        reader.read_full(&mut self.head, &mut self.filled)
    }

    /// Returns the next header, or `None` at the end. It skips what was not read of the content before it.
    ///
    /// # Errors
    /// Returns the reader's first fault, `UnexpectedEof` if the archive ends inside a content or a header, and
    /// `InvalidData` if a header is none. No error loses a byte, so the same call continues. Never returns
    /// `Interrupted`.
    pub fn next_header(&mut self) -> Result<Option<Header>>
        ensures { NextHeader R.Read self.old result self.new }
    {
        self.reach_header()?;
        if self.filled <= 1 {
            return Ok(None);
        }
        if self.filled < HEAD {
            return Err(Error::new(ErrorKind::UnexpectedEof, "the archive ends inside a header"));
        }
        let header = Header::of_head(&self.head)?;
        self.content.set_limit(header.size);
        self.filled = if header.size % 2 == 0 { 1 } else { 0 };
        Ok(Some(header))
    }

    /// Returns the next entry, or `None` at the end. What is not read of an entry is skipped by the next call.
    ///
    /// # Errors
    /// Returns the errors of [`next_header`](Archive::next_header), which it calls. Of an end and of errors no contract
    /// speaks here, since the archive may be lent on.
    pub fn next_entry(&mut self) -> Result<Option<Entry<'_, R>>>
        ensures name { IfOk result (λ o. IfSome o (λ e. e.archive.ghost_name ≡ self.entry.ghost_name)) }
        ensures next { IfOk result (λ o. IfSome o (λ e. NextHeader R.Read self.old (Ok (Some e.header)) e.archive.now)) }
    {
        match self.next_header()? {
            None => Ok(None),
            Some(header) => Ok(Some(Entry {
                header,
                archive: self,
            })),
        }
    }
}

// Reads the rest of a content. The entry still lends the same archive, so what became of that is known once it has ended.
fn read_rest<R: Read>(entry: &mut Entry<R>, buf: &mut Vec<u8>) -> Result<usize>
    ensures same { entry.new.archive.ghost_name ≡ entry.old.archive.ghost_name }
    ensures took { ReadsContent R.Read entry.old.archive.now buf.old.items entry.new.archive.now buf.new.items }
{
    entry.read_to_end(buf)
}

// Reads the rest of the content by way of an entry, which has ended when this returns.
fn read_lent<R: Read>(archive: &mut Archive<R>, header: Header, buf: &mut Vec<u8>) -> Result<usize>
    ensures { ReadsContent R.Read archive.old buf.old.items archive.new buf.new.items }
{
    let mut entry = Entry { header, archive };
    read_rest(&mut entry, buf)
}

/// Returns the content of the next entry, or `None` at the end. Of an `Entry` that stands in an `Option` no contract says
/// what its archive is once it has ended; of one by itself this does.
///
/// # Errors
/// Returns the errors of `next_header` and `read_to_end`. After one of `read_to_end` the bytes before it are lost.
pub fn read_next<R: BufRead>(alloc: Global, archive: &mut Archive<R>) -> Result<Option<Vec<u8>>>
    // What the archive has left once the entry was read and has ended.
    ensures { IfOk result (λ o. IfSome o (λ v. ReadsNext R.Read archive.old v.items archive.new)) }
{
    let Some(header) = archive.next_header()? else {
        return Ok(None);
    };
    let mut content = Vec::new(alloc);
    read_lent(archive, header, &mut content)?;
    Ok(Some(content))
}
