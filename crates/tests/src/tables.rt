// Tables that the crate `csv` reads and writes over this library's streams.
ghost use Rattle.std.specs.Prelude.{◌≡◌, [], ◌++◌, take, map, IfOk, option_map};
ghost use Rattle.csv.specs.{Machine.{next_record}, Reading.{default_config, strip_bom}, Records.{fields_of}};
ghost use Rattle.csv.specs.Writing.{default_writer, row_text};
ghost use Rattle.system_streams.specs.ToStd.{accepted_so_far};
ghost use Rattle.csv.specs.declared.parser.State.TheVariants as st;

use csv::{ByteRecord, Error, ReaderBuilder, Writer};
use no_std_io2::io::{BufReader, BufWriter, Cursor, Read, Write};
use std::alloc::Global;
use std::test::Fail;
use system_streams::ToStd;

// Returns the first record of a table, which is the first `len` bytes of a text.
#[tactic(auto, using(crate::proofs::Fronts::front_bytes))]
fn first_record(alloc: Global, text: &[u8], len: u64) -> Result<Option<ByteRecord>, Error>
    ensures { IfOk result (λ row. option_map fields_of row ≡ option_map (λ p. p.0)
        (next_record default_config st.StartRecord [] [] (strip_bom (take len text.now)))) }
{
    let table = BufReader::<_, 8>::new(Cursor::new(text).take(len));
    let mut rows = ReaderBuilder::new()
        .has_headers(false)
        .from_reader(alloc, ToStd::new(table));
    let mut row = ByteRecord::new(alloc);
    if rows.read_byte_record(&mut row)? {
        Ok(Some(row))
    } else {
        Ok(None)
    }
}

// A table that is cut by a buffer, or that ends after its own bytes.
#[test]
fn a_table_is_read_from_the_front_of_a_stream(rt: HostRuntime) -> Result<(), Fail> {
    let text = b"one,\"two,\nthree\"\nfour,five\n";
    let row = first_record(rt.alloc(), text.as_slice(), 8)?.ok_or("no record")?;
    assert!(rt; row.len() == 2 && row.get(1) == Some(b"two".as_slice()));
    let row = first_record(rt.alloc(), text.as_slice(), 27)?.ok_or("no record")?;
    assert!(rt; row.len() == 2 && row.get(1) == Some(b"two,\nthree".as_slice()));
    assert!(rt; first_record(rt.alloc(), text.as_slice(), 0)?.is_none());
    Ok(())
}

// Writes a row of a table, and returns the writer. After an error no clause says what the writer accepted.
fn write_row<W: Write + Drop>(out: W, fields: &[&[u8]]) -> Result<W, Error>
    ensures { IfOk result (λ w. accepted_so_far (W.told w)
        ≡ accepted_so_far (W.told out) ++ row_text default_writer (map (λ f. f.now) fields.now)) }
{
    let mut rows = Writer::from_writer(ToStd::new(out));
    rows.write_fields(fields)?;
    match rows.into_inner() {
        Ok(out) => Ok(out.into_inner()),
        Err(e) => Err(e.into_error()),
    }
}

// A field without its quotes, a row without its end, or a second row in the place of the first.
#[test]
fn rows_go_out(rt: HostRuntime) -> Result<(), Fail> {
    let w = BufWriter::<_, 4>::new(Vec::new(rt.alloc()));
    let w = write_row(w, &[b"one", b"two,\nthree", b"say \"four\""])?;
    let w = write_row(w, &[b"five", b"", b"six"])?;
    let wanted = b"one,\"two,\nthree\",\"say \"\"four\"\"\"\nfive,,six\n".as_slice();
    assert!(rt; w.into_inner()?.as_slice() == wanted);
    Ok(())
}
