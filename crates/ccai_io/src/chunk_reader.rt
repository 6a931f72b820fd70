//! Reading by chunks through a buffer: what the adapters over files and standard input share.
ghost use Rattle.std.specs.Prelude.{◌≤◌, IfOk};

use crate::repeat::repeated;
use std::io;
use std::io::Read;

/// A reader with a buffer of 4,096 bytes.
#[derive(Drop)]
pub(crate) struct ChunkReader<R: Read + Drop> {
    reader: R,
    buffer: [u8; 4096],
}

impl<R: Read + Drop> ChunkReader<R> {
    /// The buffer is zero at first.
    pub(crate) fn new(reader: R) -> Self {
        ChunkReader {
            reader,
            buffer: [0; 4096],
        }
    }

    /// Reads the next bytes into the buffer, from its start on, and gives their number; none are read
    /// at the end of the input alone. An interrupted read is repeated.
    pub(crate) fn fill(&mut self) -> io::Result<usize>
        ensures { IfOk result (λ count. count ≤ 4096) }
    {
        repeated(self, |chunk| chunk.reader.read(&mut chunk.buffer))
    }

    /// Lends the buffer.
    pub(crate) fn buffer(&self) -> &[u8; 4096] {
        &self.buffer
    }
}
