//! The outside as the other crates see it: the traits of a shelf, a source and a sink, with the counts of
//! their faults, and the errors of their calls.
ghost use Rattle.std.specs.Prelude.{◌≡◌, ℕ, List, Option, IfErr, IfOk, OnErr, OnOk};

use std::alloc::Global;
use thiserror::Error;

/// Why a file was not taken.
#[derive(Clone, Copy, Debug, PartialEq, Eq, Error)]
pub enum ShelfFault {
    /// There is no file of that name.
    #[error("no such file")]
    Missing,
    /// The file could not be read.
    #[error("file could not be read")]
    Failed,
    /// Memory for its bytes is wanting.
    #[error("out of memory")]
    Memory,
}

/// The one fault of a source and of a sink.
#[derive(Clone, Copy, Debug, PartialEq, Eq)]
pub struct Failed;

/// Files to be taken by name.
pub trait Shelf {
    ghost use Rattle.ccai_io.specs.Outside.{Files, Holds, Refused};

    /// The files that are held, where the shelf tells them.
    ghost files: { Self → Option Files };

    /// How many files were asked for in vain; it never falls.
    ghost absences: { Self → ℕ };

    /// How many times a file could not be read; it never falls.
    ghost faults: { Self → ℕ };

    /// The bytes of the file of a name. The files stay as they are.
    ///
    /// # Errors
    ///
    /// `Missing` only where `absences` rose in this call and, where the files are told, none has the
    /// name. `Failed` only where `faults` rose in this call. `Memory` where memory for the bytes is
    /// wanting. A refusal raises no count but its own.
    fn take(&mut self, alloc: Global, name: &str) -> Result<Vec<u8>, ShelfFault>
        ensures given { IfOk result (λ bytes. Holds (files self.old) name.now (Some bytes.items)) }
        ensures calm { OnOk result ((absences self.new ≡ absences self.old) × (faults self.new ≡ faults self.old)) }
        ensures refused { IfErr result (λ fault. Refused fault (files self.old) name.now (absences self.old) (faults self.old) (absences self.new) (faults self.new)) }
        ensures kept { files self.new ≡ files self.old };
}

/// Bytes to be taken one by one.
pub trait Source {
    ghost use Rattle.ccai_io.specs.Outside.{HasCause, Takes};

    /// The bytes that are left, where the source tells them.
    ghost left: { Self → Option (List ℕ) };

    /// How many reads failed; it never falls.
    ghost faults: { Self → ℕ };

    /// The next byte, or `None` at the end of the input.
    ///
    /// # Errors
    ///
    /// `Failed` only where `faults` rose in this call; no byte is taken then.
    fn next(&mut self) -> Result<Option<u8>, Failed>
        ensures taken { IfOk result (λ byte. Takes (left self.old) (left self.new) byte) }
        ensures kept { OnErr result (left self.new ≡ left self.old) }
        ensures cause { HasCause (faults self.old) (faults self.new) result };
}

/// Where bytes are put out.
pub trait Sink {
    ghost use Rattle.ccai_io.specs.Outside.{Appends, AppendsPrefix, HasCause};

    /// The bytes that were put out, where the sink tells them.
    ghost held: { Self → Option (List ℕ) };

    /// How many writes failed; it never falls.
    ghost faults: { Self → ℕ };

    /// Puts a piece out.
    ///
    /// # Errors
    ///
    /// `Failed` only where `faults` rose in this call; a prefix of the piece may have been put out.
    fn put(&mut self, piece: &[u8]) -> Result<(), Failed>
        ensures put { OnOk result (Appends (held self.old) (held self.new) piece.now) }
        ensures partly { OnErr result (AppendsPrefix (held self.old) (held self.new) piece.now) }
        ensures cause { HasCause (faults self.old) (faults self.new) result };
}
