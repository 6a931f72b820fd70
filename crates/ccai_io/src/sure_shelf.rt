//! A shelf in memory that never fails.
ghost use Rattle.std.specs.Prelude.{◌≡◌, IfErr, IfOk, MatchResult, OnErr, OnOk, ok_or};
ghost use Rattle.std.specs.FinMap.{empty, insert};

use crate::file_table::FileTable;
use crate::outside::{Shelf, ShelfFault};
use std::alloc::Global;
use std::marker::Model;
use word_ops::Memory;

/// A shelf of files in memory that never fails.
///
/// Contracts see its files and the count of absences.
#[derive(Debug, Drop)]
pub struct SureShelf {
    files: FileTable,
    absences: u64,
}

impl Model for SureShelf {
    ghost use Rattle.ccai_io.specs.Sure.{SureShelfState};
    ghost use Rattle.ccai_io.specs.Coded.{sure_shelf_code};

    ghost Value = { SureShelfState };

    ghost coded = { sure_shelf_code };

    ghost view = { λ shelf. record { files = shelf.files; absences = shelf.absences } };
}

impl SureShelf {
    /// A shelf without a file.
    pub fn new(alloc: Global) -> Self
        ensures { result ≡ record { files = empty; absences = 0 } }
    {
        SureShelf {
            files: FileTable::new(alloc),
            absences: 0,
        }
    }

    /// Puts a file on the shelf, in the place of the one of its name where there is one.
    ///
    /// # Errors
    ///
    /// `Memory` where memory for the file is wanting; nothing has changed then.
    pub fn put_file(&mut self, name: &str, bytes: &[u8]) -> Result<(), Memory>
        ensures put { OnOk result (self.new ≡ record self.old { files = insert self.old.files name.now bytes.now }) }
        ensures kept { OnErr result (self.new ≡ self.old) }
    {
        self.files.put(name.as_bytes(), bytes)
    }
}

impl Shelf for SureShelf {
    ghost use Rattle.std.specs.Prelude.{Some};
    ghost use Rattle.ccai_io.specs.Outside.{Holds, Refused, file_of};
    ghost use Rattle.ccai_io.specs.MemShelf.{IsRefusal};
    ghost use Rattle.ccai_io.specs.Sure.{after_refusal};

    ghost files = { λ shelf. Some shelf.files };

    ghost absences = { λ shelf. shelf.absences };

    ghost faults = { λ shelf. 0 };

    /// The bytes of the file of a name.
    ///
    /// # Errors
    ///
    /// `Missing` exactly where no file has the name, and `Memory` where memory for the bytes is
    /// wanting; never `Failed`.
    fn take(&mut self, alloc: Global, name: &str) -> Result<Vec<u8>, ShelfFault>
        ensures given { IfOk result (λ bytes. Holds (Some self.old.files) name.now (Some bytes.items)) }
        ensures calm { OnOk result (self.new.absences ≡ self.old.absences) }
        ensures refused { IfErr result (λ fault. Refused fault (Some self.old.files) name.now self.old.absences 0 self.new.absences 0) }
        ensures kept { Some self.new.files ≡ Some self.old.files }
        ensures answer { IfErr result (λ fault. IsRefusal fault (ok_or (file_of self.old.files name.now) ShelfFault.Missing)) }
        ensures after { MatchResult result (λ _. self.new ≡ self.old) (λ fault. self.new ≡ after_refusal self.old fault) }
    {
        match self.files.get(name.as_bytes()) {
            Some(bytes) => Vec::from_slice(alloc, bytes).map_err(|_| ShelfFault::Memory),
            None => {
                self.absences = self.absences.saturating_add(1);
                Err(ShelfFault::Missing)
            }
        }
    }
}
