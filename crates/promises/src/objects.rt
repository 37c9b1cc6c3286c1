// A call of a boxed object, or through a reference to an object, is the same call of the object, and tells
// what that tells.
ghost use Rattle.std.specs.Prelude.{[], ◌≡◌, Ok, Some, length};
ghost use Rattle.no_std_io2.specs.{Calls.{Gave, Sought, Wrote}, Takes.{answered, gave_front, KeepsContent, Takes}, Seek.{Seeks}};
ghost use Rattle.no_std_io2.specs.{inner.Calls.{BoxMay, LentMay}, Moves.{Moves}, Write.{accepted_of, write_mishap}};

use no_std_io2::io::{BufRead, Read, Result, Seek, SeekFrom, Write};

// A writer in a box accepts what the box accepts. If it takes all, so does the box.
fn writes_in_a_box(w: &mut Box<dyn Write + Drop>, x: &[u8]) -> Result<usize>
    ensures moves { Moves (told w.old) (accepted_of result x.now) (write_mishap result x.now) (told w.new) }
    ensures all { takes_all w.old → (told w.old).mishaps ≡ Some [] → result ≡ Ok (length x.now) }
    ensures call { BoxMay w.old (Write-box w.old).may (Wrote x.now result) w.new }
{
    w.write(x)
}

// A reader in a box gives what the box gives.
fn reads_in_a_box(r: &mut Box<dyn Read + Drop>, buf: &mut [u8]) -> Result<usize>
    ensures takes { Takes (record { events = events r.old; store = store r.old; turns = turns r.old })
        (answered (gave_front result buf.new))
        (record { events = events r.new; store = store r.new; turns = turns r.new }) }
    ensures call { BoxMay r.old (Read-box r.old).Read.may (Gave (length buf.new) (gave_front result buf.new)) r.new }
{
    r.read(buf)
}

// So does one with a buffer.
fn lends_in_a_box(r: &mut Box<dyn BufRead + Drop>, buf: &mut [u8]) -> Result<usize>
    ensures takes { Takes (record { events = events r.old; store = store r.old; turns = turns r.old })
        (answered (gave_front result buf.new))
        (record { events = events r.new; store = store r.new; turns = turns r.new }) }
    ensures call { BoxMay r.old (BufRead-box r.old).Read.may (Gave (length buf.new) (gave_front result buf.new)) r.new }
{
    r.read(buf)
}

// A stream in a box goes where the box goes.
fn seeks_in_a_box(s: &mut Box<dyn Seek + Drop>, target: SeekFrom) -> Result<u64>
    ensures store { KeepsContent (store s.old) (λ len was now. Seeks len was target result now) (store s.new) }
    ensures call { BoxMay s.old (Seek-box s.old).Seek.may (Sought target result) s.new }
{
    s.seek(target)
}

// A writer behind a reference accepts what the object accepts. If the object takes all, so does the reference.
fn writes_through_an_object(w: &mut &mut dyn Write, x: &[u8]) -> Result<usize>
    ensures moves { Moves (told w.old.now) (accepted_of result x.now) (write_mishap result x.now) (told w.new.now) }
    ensures all { takes_all w.old.now → (told w.old.now).mishaps ≡ Some [] → result ≡ Ok (length x.now) }
    ensures call { LentMay w.old (Write-dyn w.old.now).may (Wrote x.now result) w.new }
{
    w.write(x)
}

// A reader behind a reference gives what the object gives.
fn reads_through_an_object(r: &mut &mut dyn Read, buf: &mut [u8]) -> Result<usize>
    ensures takes { Takes (record { events = events r.old.now; store = store r.old.now; turns = turns r.old.now })
        (answered (gave_front result buf.new)) (record { events = events r.new.now; store = store r.new.now; turns = turns r.new.now }) }
    ensures call { LentMay r.old (Read-dyn r.old.now).Read.may (Gave (length buf.new) (gave_front result buf.new)) r.new }
{
    r.read(buf)
}

// A stream behind a reference goes where the object goes.
fn seeks_through_an_object(s: &mut &mut dyn Seek, target: SeekFrom) -> Result<u64>
    ensures store { KeepsContent (store s.old.now) (λ len was now. Seeks len was target result now) (store s.new.now) }
    ensures call { LentMay s.old (Seek-dyn s.old.now).Seek.may (Sought target result) s.new }
{
    s.seek(target)
}
