// The bytes of a group of three that is not whole yet.
ghost use Rattle.std.specs.Prelude.{◌≡◌, ◌≢◌, ◌+◌, ◌<◌, true, false, [], ◌++◌, length};

// `S` is the size of the buffer that its text goes into, which has room for more than that.
#[derive(Drop)]
pub(crate) struct Group<const S: usize> {
    bytes: [u8; 3],
    len: usize,
    ghost short: { len < 3 },
    ghost room: { 4 < S },
}

impl<const S: usize> Group<S> {
    ghost use Rattle.base64_stream.specs.Held.{group_items};

    pub(crate) fn new() -> Group<S>
        requires { 4 < S }
        ensures { group_items result ≡ [] }
    {
        Group {
            bytes: [0; 3],
            len: 0,
        }
    }

    pub(crate) fn as_slice(&self) -> &[u8]
        ensures value { result.now ≡ group_items self.now }
        ensures short { length result.now < 3 }
        ensures room { 4 < S }
    {
        &self.bytes[..self.len]
    }

    pub(crate) fn is_empty(&self) -> bool
        ensures yes { result ≡ true → group_items self.now ≡ [] }
        ensures no { result ≡ false → group_items self.now ≢ [] }
    {
        self.len == 0
    }

    // Keeps more bytes, which do not make the group whole.
    pub(crate) fn keep(&mut self, more: &[u8])
        requires { length (group_items self.old) + length more.now < 3 }
        ensures { group_items self.new ≡ group_items self.old ++ more.now }
    {
        let end = self.len + more.len();
        self.bytes[self.len..end].copy_from_slice(more);
        self.len = end;
    }

    pub(crate) fn clear(&mut self)
        ensures { group_items self.new ≡ [] }
    {
        self.len = 0;
    }
}
