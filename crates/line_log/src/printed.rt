//! An array into which a text is printed.
ghost use Rattle.std.specs.{Prelude.{◌≡◌, ◌≤◌, ◌<◌, ◌+◌, ◌++◌, [], true, length}, Bool.{OnTrue, OnFalse}};

/// The bytes that were printed so far, at most `S`, and whether all fit.
#[derive(Drop)]
pub(crate) struct Printed<const S: usize> {
    bytes: [u8; S],
    len: usize,
    pub(crate) fits: bool,
    // Whether the value's own `fmt` failed.
    pub(crate) failed: bool,
    ghost in_range: { len ≤ S },
}

impl<const S: usize> Printed<S> {
    ghost use Rattle.line_log.specs.Text.{printed_bytes};

    pub(crate) fn new() -> Printed<S>
        ensures none { printed_bytes result ≡ [] }
        ensures fits { result.fits ≡ true }
    {
        Printed {
            bytes: [0; S],
            len: 0,
            fits: true,
            failed: false,
        }
    }

    pub(crate) fn as_slice(&self) -> &[u8]
        ensures { result.now ≡ printed_bytes self.now }
    {
        let all = &self.bytes[..];
        &all[..self.len]
    }

    /// Appends a piece if it fits, and returns whether it does.
    pub(crate) fn append(&mut self, piece: &[u8]) -> bool
        ensures fits { OnTrue result (printed_bytes self.new ≡ printed_bytes self.old ++ piece.now) }
        ensures full { OnFalse result (S < length (printed_bytes self.old) + length piece.now) }
    {
        if piece.len() > S - self.len {
            return false;
        }
        let end = self.len + piece.len();
        let all = &mut self.bytes[..];
        all[self.len..end].copy_from_slice(piece);
        self.len = end;
        true
    }
}
