// Clients of a device that notes its calls, played by rows of calls.
use no_std_io2::io::IntoInnerError;
use rows_play::prelude::*;
use std::alloc::Global;

/// A client of a device.
pub trait Client: Drop {
    /// Makes the call of a row, and prints its result.
    fn call(&mut self, call: &Call<'_>, line: &mut Line);

    /// Prints the columns of its own that a call and a drop have.
    fn show(&self, _line: &mut Line) {}

    /// Unwraps it, and prints the columns of that before what is left of it is dropped.
    fn unwrap(self, _columns: &Columns, line: &mut Line)
    where
        Self: Sized,
    {
        line.tell(Unplayed::NoCall);
    }
}

/// The columns after a client's own.
#[derive(Drop)]
pub enum Columns {
    /// The calls that reached the device of this journal.
    Calls(Notes),
    /// The bytes that it took, and the calls.
    All(Notes),
}

impl Columns {
    /// Prints the columns.
    pub fn show(&self, line: &mut Line) {
        match self {
            Columns::Calls(journal) => show_calls(journal, line),
            Columns::All(journal) => {
                show_out(journal, line);
                show_calls(journal, line);
            }
        }
    }

    /// Prints how an `into_inner` ended, and then the columns.
    pub fn show_ended<D, C>(&self, ended: &Result<D, IntoInnerError<C>>, line: &mut Line) {
        match ended {
            Ok(_device) => line.word("ok"),
            Err(e) => line.error(e.error()),
        }
        self.show(line);
    }
}

// A client until a row `drop` or `into_inner` ends it.
#[derive(Drop)]
struct Playing<C: Drop> {
    client: Option<C>,
    columns: Columns,
}

impl<C: Client> Stream for Playing<C> {
    fn play(&mut self, call: &Call<'_>, line: &mut Line) {
        let Some(mut client) = self.client.take() else {
            line.tell(Unplayed::NotReady);
            return;
        };
        match call.word {
            "drop" => {
                line.word("-");
                client.show(line);
                drop(client);
                self.columns.show(line);
            }
            "into_inner" => client.unwrap(&self.columns, line),
            _ => {
                client.call(call, line);
                client.show(line);
                self.columns.show(line);
                self.client = Some(client);
            }
        }
    }
}

/// Plays the rows on a client.
pub fn play<C: Client>(client: C, columns: Columns, player: &mut Player<'_, '_>) -> Played<()> {
    player.play(&mut Playing {
        client: Some(client),
        columns,
    })
}

/// Makes a device on this journal.
pub fn on_journal(alloc: Global, journal: &Notes) -> Played<Recorder> {
    Ok(Recorder::new(alloc, journal.clone()?, ReaderName::Only))
}

/// Makes a device that has these results, and its journal.
pub fn new_device(alloc: Global, words: &str) -> Played<(Recorder, Notes)> {
    let journal = new_journal(alloc, words)?;
    Ok((on_journal(alloc, &journal)?, journal))
}
