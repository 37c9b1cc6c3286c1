//! [`print_table`], a loop over a writer whose type is known only at run time, and its callers over an array and a buffer.
ghost use Rattle.std.specs.Prelude.{◌≡◌, [], ◌++◌, IfOk, IfErr, OnOk};
ghost use Rattle.no_std_io2.specs.{Cursor.{cursor_out}, Moves.{Moves, told_out}, inner.Writers.{OfObject}};
ghost use Rattle.examples.specs.Tables.{table, PrintsRows, StopsTable};

use no_std_io2::io::{BufWriter, Cursor, Result, Write, print_to_object};

/// Prints a line `ID=VALUE` for each of these rows, each by one `write_all`, and makes no other call. It allocates nothing.
///
/// # Errors
/// Returns the error of the writer behind the object, which then has accepted some front of the table. No line is too
/// long for the 32 bytes. The contract of a number's `fmt` does not say when that fails; then the writer has accepted the
/// lines before.
pub fn print_table(w: &mut dyn Write, rows: &[(u32, u32)]) -> Result<()>
    ensures all { OnOk result (Moves (told w.old) (table rows.now) [] (told w.new)) }
    ensures stops { IfErr result (λ e. StopsTable (told w.old) rows.now e (told w.new)) }
    ensures calls { OfObject w.old (λ old new. PrintsRows (Write-dyn w.old) rows.now old result new) w.new }
{
    'rows: for &(id, value) in rows {
        print_to_object::<_, _, 32>(w, format_args!("{id}={value}\n"))?;
    }
    Ok(())
}

/// Prints a table behind what a page has. It allocates nothing.
///
/// # Errors
/// Returns `WriteZero` if the page has too little room; it then has some front of the table.
pub fn table_at(page: &mut Cursor<[u8; 64]>, rows: &[(u32, u32)]) -> Result<()>
    ensures all { OnOk result (cursor_out (λ a. a) page.new ≡ cursor_out (λ a. a) page.old ++ table rows.now) }
    ensures stops { IfErr result (λ e. StopsTable (told_out (cursor_out (λ a. a) page.old)) rows.now e
        (told_out (cursor_out (λ a. a) page.new))) }
{
    print_table(page, rows)
}

/// Prints a table behind what a page has, through a buffer of 32 bytes.
///
/// # Errors
/// Returns `WriteZero` if the page has too little room. It is then dropped.
pub fn add_table(page: Cursor<[u8; 64]>, rows: &[(u32, u32)]) -> Result<Cursor<[u8; 64]>>
    ensures { IfOk result (λ new. cursor_out (λ a. a) new ≡ cursor_out (λ a. a) page ++ table rows.now) }
{
    let mut w = BufWriter::<_, 32>::new(page);
    print_table(&mut w, rows)?;
    match w.into_inner() {
        Ok(page) => Ok(page),
        Err(e) => Err(e.into()),
    }
}
