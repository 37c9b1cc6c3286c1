// [`Stored`], the store of a stream.
ghost use Rattle.std.specs.Prelude.{Option, None};
ghost use Rattle.no_std_io2_base.specs.Events.{Store};

/// The store of a stream, for contracts: a content, and a position in it. It is the parent of
/// [`Read`](super::Read) and [`Seek`](super::Seek), so that both have the same store.
///
/// It has no calls. A stream without a store, such as a socket, defines nothing.
///
/// ```rust
/// impl<S> Stored for Inbox<S> {}
/// ```
pub trait Stored {
    // The content of the stream and the position in it, if it tells them.
    ghost store: { Self → Option Store } = { λ _. None };
}
