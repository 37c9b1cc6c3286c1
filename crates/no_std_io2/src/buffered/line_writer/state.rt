// A `Sender` whose held bytes have no newline, or end in one.
ghost use Rattle.std.specs.Prelude.{◌≡◌};
ghost use Rattle.std.specs.Borrow.{Lends, sem};
ghost use Rattle.std.proofs.Props.{props};
ghost use Rattle.no_std_io2_base.specs.inner.Lines.{IsLineState};
ghost use Rattle.no_std_io2.specs.inner.BufWriter.{sender_inner, sender_buffer};

use crate::buffered::sender::Sender;
use no_std_io2_base::traits::Write;

// The ghost field says so. A struct with a bound and a ghost field has no proof over a boxed
// object, so this one has no bound.
#[derive(Drop)]
pub struct LineSender<W, const S: usize> {
    pub(super) buffered: Sender<W, S>,
    ghost line: { IsLineState (sender_buffer buffered) } by { Prim.hlevel props },
}

impl<W: Write + Drop, const S: usize> LineSender<W, S> {
    ghost use Rattle.no_std_io2.specs.contracts.buffered.line_writer.state.LineSender.{the_row as sender-row};

    // Wraps a sender whose held bytes have no newline, or end in one.
    pub(super) fn new(buffered: Sender<W, S>) -> LineSender<W, S>
        requires { IsLineState (sender_buffer buffered) }
        ensures { result.buffered ≡ buffered }
    {
        LineSender { buffered }
    }

    // Gets a mutable reference to the inner writer. The buffer stays, whatever is written there.
    pub(super) fn get_mut(&mut self) -> &mut W
        ensures value { result.now ≡ sender_inner self.old.buffered }
        ensures* writes_back { sem 𝓛 (Lends (sender-row W.row S.row) W.row self.entry result
            (λ inner. record { buffered = record self.old.buffered { inner = inner }; line = self.old.line })) }
    {
        self.buffered.get_mut()
    }
}
