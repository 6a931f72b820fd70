//! The adapter over a reader, as standard input. It tells no content.
ghost use Rattle.std.specs.Prelude.{◌≡◌};

use crate::chunk_reader::ChunkReader;
use crate::outside::{Failed, Source};
use std::io::Read;
use std::marker::Model;

/// The bytes of a reader, as of standard input, taken one by one through a buffer of 4,096 bytes.
///
/// It does not tell which bytes are left. Contracts see how many reads failed, a count that stands
/// still at 2^64 - 1.
#[derive(Drop)]
pub struct StdSource<R: Read + Drop> {
    chunk: ChunkReader<R>,
    start: usize,
    end: usize,
    faults: u64,
}

impl<R: Read + Drop> Model for StdSource<R> {
    ghost use Rattle.std.specs.Prelude.{◌≤◌, ℕ};

    ghost Value = { ℕ };

    ghost view = { λ source. source.faults };

    ghost invariant = { λ source. (source.start ≤ source.end) × (source.end ≤ 4096) };
}

impl<R: Read + Drop> StdSource<R> {
    /// A source of the bytes that the reader gives. No read has failed yet.
    pub fn new(reader: R) -> Self
        ensures { result ≡ 0 }
    {
        StdSource {
            chunk: ChunkReader::new(reader),
            start: 0,
            end: 0,
            faults: 0,
        }
    }
}

impl<R: Read + Drop> Source for StdSource<R> {
    ghost use Rattle.std.specs.Prelude.{None, is_err, if◌then◌else◌};
    ghost use Rattle.ccai_io.specs.Calls.{raised};
    ghost use Rattle.ccai_io.specs.Outside.{HasCause};

    ghost left = { λ source. None };

    ghost faults = { λ source. source };

    /// The next byte, or `None` where a read gives nothing.
    ///
    /// # Errors
    ///
    /// `Failed` where a read fails, or is interrupted more than 1,000 times in a row.
    fn next(&mut self) -> Result<Option<u8>, Failed>
        ensures cause { HasCause self.old self.new result }
        ensures count { self.new ≡ (if is_err result then raised self.old else self.old) }
    {
        if self.start >= self.end {
            match self.chunk.fill() {
                Ok(0) => return Ok(None),
                Ok(count) => {
                    self.start = 0;
                    self.end = count;
                }
                Err(_) => {
                    self.faults = self.faults.saturating_add(1);
                    return Err(Failed);
                }
            }
        }
        let byte = self.chunk.buffer()[self.start];
        self.start += 1;
        Ok(Some(byte))
    }
}
