// Bytes with a limit: an array and how many of its bytes are in use, since nothing here allocates.
// What such a buffer holds are the bytes in use: specs/Held.antt.
#![tactic(auto)]

ghost use Rattle.std.specs.Prelude.{◌≤◌};

// At most N bytes. Equality is not derived: bytes past those in use must not count.
#[derive(Clone, Copy, Debug)]
pub struct Bytes<const N: usize> {
    bytes: [u8; N],
    len: usize,
    ghost short: { len ≤ N },
}

impl<const N: usize> Bytes<N> {
    ghost use Rattle.std.specs.Prelude.{◌≡◌, ◌++◌};
    ghost use Rattle.bounded.specs.Held.{held, nothing, Holding};

    // No bytes.
    pub fn empty() -> Bytes<N>
        ensures { result ≡ nothing }
    {
        Bytes {
            bytes: [0; N],
            len: 0,
        }
    }

    // These bytes; none if they are more than N.
    pub fn of(bytes: &[u8]) -> Option<Bytes<N>>
        ensures { Holding bytes.now result }
    {
        Bytes::empty().with(bytes)
    }

    // The bytes with more behind them; none if all are more than N.
    pub fn with(self, more: &[u8]) -> Option<Bytes<N>>
        ensures { Holding (held self.entry ++ more.now) result }
    {
        let Bytes { mut bytes, len } = self;
        if N - len < more.len() {
            return None;
        }
        let end = len + more.len();
        // A part is lent of a slice, not of an array whose length is a parameter.
        let all = &mut bytes[..];
        all[len..end].copy_from_slice(more);
        Some(Bytes { bytes, len: end })
    }

    // The bytes in use.
    pub fn as_slice(&self) -> &[u8]
        ensures { result.now ≡ held self.now }
    {
        &self.bytes[..self.len]
    }
}
