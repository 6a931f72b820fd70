//! The adapter over a writer, as standard output and standard error. It tells no content.
ghost use Rattle.std.specs.Prelude.{◌≡◌, ◌≤◌, IfOk, length};

use crate::outside::{Failed, Sink};
use crate::repeat::repeated;
use std::io;
use std::io::{ErrorKind, Write};
use std::marker::Model;

/// A writer, as standard output or standard error, to which each piece is written and flushed.
///
/// It does not tell which bytes were put out. Contracts see how many pieces failed, a count that
/// stands still at 2^64 - 1.
#[derive(Drop)]
pub struct StdSink<W: Write + Drop> {
    writer: W,
    faults: u64,
}

impl<W: Write + Drop> Model for StdSink<W> {
    ghost use Rattle.std.specs.Prelude.{ℕ};

    ghost Value = { ℕ };

    ghost view = { λ sink. sink.faults };
}

impl<W: Write + Drop> StdSink<W> {
    /// A sink that puts its pieces to the writer. No piece has failed yet.
    pub fn new(writer: W) -> Self
        ensures { result ≡ 0 }
    {
        StdSink { writer, faults: 0 }
    }
}

// Writes some bytes of a piece from its start on, and gives their number.
fn write_some<W: Write>(writer: &mut W, piece: &[u8]) -> io::Result<usize>
    ensures { IfOk result (λ count. count ≤ length piece.now) }
{
    repeated(writer, |writer| writer.write(piece))
}

// Writes a piece and flushes. A write that takes nothing of what is left is an error.
fn write_whole<W: Write>(writer: &mut W, piece: &[u8]) -> io::Result<()> {
    let mut rest = piece;
    while !rest.is_empty() {
        let count = write_some(writer, rest)?;
        if count == 0 {
            return Err(io::Error::from(ErrorKind::WriteZero));
        }
        rest = &rest[count..];
    }
    repeated(writer, |writer| writer.flush())
}

impl<W: Write + Drop> Sink for StdSink<W> {
    ghost use Rattle.std.specs.Prelude.{None, is_err, if◌then◌else◌};
    ghost use Rattle.ccai_io.specs.Calls.{raised};
    ghost use Rattle.ccai_io.specs.Outside.{HasCause};

    ghost held = { λ sink. None };

    ghost faults = { λ sink. sink };

    /// Writes a piece and flushes.
    ///
    /// # Errors
    ///
    /// `Failed` where a write or the flush fails, is interrupted more than 1,000 times in a row, or
    /// takes nothing of a piece that is not empty; a part of the piece may have been written.
    fn put(&mut self, piece: &[u8]) -> Result<(), Failed>
        ensures cause { HasCause self.old self.new result }
        ensures count { self.new ≡ (if is_err result then raised self.old else self.old) }
    {
        match write_whole(&mut self.writer, piece) {
            Ok(()) => Ok(()),
            Err(_) => {
                self.faults = self.faults.saturating_add(1);
                Err(Failed)
            }
        }
    }
}
