//! Bytes that are taken from the front one by one: what the sources in memory are made of.
ghost use Rattle.std.specs.Prelude.{◌≡◌, drop, slice_get};

use std::marker::Model;

/// Bytes to be taken from the front, which contracts see as the list of those that are left.
#[derive(Debug, Drop)]
pub(crate) struct ByteQueue {
    bytes: Vec<u8>,
    taken: usize,
}

impl Model for ByteQueue {
    ghost use Rattle.std.specs.Prelude.{◌≤◌, ℕ, List, drop, length};

    ghost Value = { List ℕ };

    ghost view = { λ queue. drop queue.taken queue.bytes.items };

    ghost invariant = { λ queue. queue.taken ≤ length queue.bytes.items };
}

impl ByteQueue {
    /// All of these bytes.
    pub(crate) fn new(bytes: Vec<u8>) -> Self
        ensures { result ≡ bytes.items }
    {
        ByteQueue { bytes, taken: 0 }
    }

    /// Takes the first byte, if one is left.
    pub(crate) fn take(&mut self) -> Option<u8>
        ensures first { result ≡ slice_get self.old 0 }
        ensures rest { self.new ≡ drop 1 self.old }
    {
        let byte = *self.bytes.get(self.taken)?;
        self.taken += 1;
        Some(byte)
    }
}
