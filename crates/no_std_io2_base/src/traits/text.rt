// The printing of a text to a writer, piece by piece, for `write_fmt`.
ghost use Rattle.std.specs.Prelude.{◌≡◌, ℕ, List, ◌++◌, Ok, IfSome, IsOk, OnOk, OnErr, Result};
ghost use Rattle.no_std_io2_base.specs.declared.error.Error.{Error};
ghost use Rattle.no_std_io2_base.specs.inner.Text.{FailsText};
ghost use Rattle.no_std_io2_base.specs.inner.Writers.{PrintsOf};
ghost use Rattle.no_std_io2_base.specs.Writers.{WriteAllOf};

use super::write::Write;
use crate::error::{Error, ErrorKind, Result};
use std::fmt;
use std::fmt::Display;
use std::marker::{Brand, PhantomData};

/// The error type of a call that prints a text. `E` is [`Error`], the only type with an impl, and
/// each call infers it. The signature does not name `Error`, because that contains a `'static`
/// text: if a signature names `'static`, the borrow checker takes no text with several lifetimes,
/// such as `format_args!("{name}={value}")`.
pub trait Answers<E> {
    ghost seen: { Result (Unit {0}) E → Result (Unit {0}) Error };

    fn answer(reply: Result<()>) -> std::result::Result<(), E>
        ensures { seen result ≡ reply };
}

impl Answers<Error> for ErrorKind {
    ghost seen = { λ reply. reply };

    fn answer(reply: Result<()>) -> Result<()> {
        reply
    }
}

// The state of the writer before the call, which the proof of the call keeps under the name of the
// borrow. A call with `Brand` chooses the name.
pub(super) trait Began<W> {
    ghost at: { W → ℕ → Type 0 };
}

impl<W> Began<W> for Brand {
    ghost at = { λ w name. Unit {0} };
}

// A borrowed writer. It is passed by value, so its reference keeps its name.
#[derive(Drop)]
pub(super) struct LentWriter<'a, W> {
    pub inner: &'a mut W,
}

// A writer that is given back, with its result and the result of the text's own `fmt`.
#[derive(Drop)]
pub(super) struct PrintedWriter<'a, W> {
    pub inner: &'a mut W,
    pub met: Result<()>,
    pub formatted: fmt::Result,
}

// A writer for the formatter. It keeps the writer's first error, because the formatter's own error
// does not contain one, and writes nothing after it.
#[derive(Drop)]
struct Adapter<'a, W: Write, K: Began<W>> {
    inner: &'a mut W,
    met: Result<()>,
    began: PhantomData<K>,
    // Some text was printed so far, whatever the `fmt` does.
    ghost prints: { ∥ ((old : W) × (text : List ℕ) × (K.at old inner.ghost_name
        × PrintsOf W.Write old text met inner.now)) ∥₁ },
}

impl<W: Write, K: Began<W>> fmt::Write for Adapter<'_, W, K> {
    // The bytes were printed after what was printed before.
    ghost write_str_gives = { λ s bs t. (old : W) (text : List ℕ)
        → K.at old s.inner.ghost_name × PrintsOf W.Write old text s.met s.inner.now
        → K.at old t.inner.ghost_name × PrintsOf W.Write old (text ++ bs) t.met t.inner.now };

    fn write_str(&mut self, s: &str) -> fmt::Result
        ensures ok { IsOk result → ⟦<Self as fmt::Write>⟧.write_str_gives self.old s.now self.new }

        // A piece is one `write_all`, and none comes after an error.
        ensures piece { OnOk self.old.met
            (WriteAllOf W.Write self.old.inner.now s.now self.new.met self.new.inner.now) }
        ensures silent { OnErr self.old.met
            ((self.new.inner.now ≡ self.old.inner.now) × (self.new.met ≡ self.old.met)) }

        // The formatter does not see the writer's error, so an error of its own is that of the text.
        ensures never_fails { IsOk result }
    {
        if self.met.is_ok() {
            self.met = self.inner.write_all(s.as_bytes());
        }
        Ok(())
    }
}

// Prints a text, and gives the writer back under the same name.
pub(super) fn print_to<'a, W: Write, D: Display + Drop, K: Began<W>>(
    lent: LentWriter<'a, W>,
    text: D,
) -> PrintedWriter<'a, W>
    requires began { K.at lent.inner.now lent.inner.ghost_name }
    ensures prints { ∥ ((old : W) × (shown : List ℕ) × (K.at old result.inner.ghost_name
        × PrintsOf W.Write old shown result.met result.inner.now)
        × (IsOk result.formatted → IfSome (D.output text) (λ bs. shown ≡ bs))) ∥₁ }
{
    let LentWriter { inner } = lent;
    let mut adapter = Adapter::<W, K> {
        inner,
        met: Ok(()),
        began: PhantomData,
    };
    // The formatter has a reference, and not the adapter itself: so LLVM knows its options, and drops the code for others.
    let formatted = fmt::Write::write(&mut adapter, text);
    let Adapter { inner, met, .. } = adapter;
    PrintedWriter {
        inner,
        met,
        formatted,
    }
}

// Returns the writer's result, or an error if the text's own `fmt` failed. That error has the kind
// of the writer's error, if there is one. Its message tells the caller that not only the writer
// failed, so the accepted bytes may not be a front of the text.
pub(super) fn answer_of(formatted: fmt::Result, met: Result<()>) -> Result<()>
    ensures ok { OnOk formatted (result ≡ met) }
    ensures err { OnErr formatted (FailsText met result) }
{
    match (formatted, met) {
        (Ok(()), met) => met,
        (Err(_), Ok(())) => Err(Error::other("formatter error")),
        (Err(_), Err(e)) => Err(Error::new(e.kind(), "formatter error")),
    }
}
