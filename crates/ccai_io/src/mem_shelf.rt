//! A shelf in memory of which chosen calls fail, for tests of the crates above and for proofs about
//! faults.
ghost use Rattle.std.specs.Prelude.{◌≡◌, ◌∷◌, ◌++◌, [], IfErr, IfOk, MatchResult, OnErr, OnOk};
ghost use Rattle.std.specs.FinMap.{insert};

use crate::calls::is_listed;
use crate::file_table::FileTable;
use crate::outside::{Shelf, ShelfFault};
use std::alloc::Global;
use std::marker::Model;
use word_ops::Memory;

/// A shelf of files in memory, of which chosen calls fail.
///
/// Contracts see its files, the number of calls of `take` so far, the numbers of the calls that
/// fail, and the counts of absences and of faults.
#[derive(Debug, Drop)]
pub struct MemShelf {
    files: FileTable,
    calls: u64,
    failing: Vec<u64>,
    absences: u64,
    faults: u64,
}

impl Model for MemShelf {
    ghost use Rattle.ccai_io.specs.MemShelf.{ShelfState};
    ghost use Rattle.ccai_io.specs.Coded.{shelf_code};

    ghost Value = { ShelfState };

    ghost coded = { shelf_code };

    ghost view = { λ shelf. record {
      files = shelf.files;
      calls = shelf.calls;
      failing = shelf.failing.items;
      absences = shelf.absences;
      faults = shelf.faults;
    } };
}

impl MemShelf {
    ghost use Rattle.ccai_io.specs.MemShelf.{empty_shelf};

    /// A shelf without a file, of which no call fails.
    pub fn new(alloc: Global) -> Self
        ensures { result ≡ empty_shelf }
    {
        MemShelf {
            files: FileTable::new(alloc),
            calls: 0,
            failing: Vec::new(alloc),
            absences: 0,
            faults: 0,
        }
    }

    /// Puts a file on the shelf, in the place of the one of its name where there is one.
    ///
    /// # Errors
    ///
    /// `Memory` where memory for the file is wanting; nothing has changed then.
    pub fn put_file(&mut self, name: &str, bytes: &[u8]) -> Result<(), Memory>
        ensures put { OnOk result (self.new ≡ record self.old { files = insert self.old.files name.now bytes.now }) }
        ensures kept { OnErr result (self.new ≡ self.old) }
    {
        self.files.put(name.as_bytes(), bytes)
    }

    /// Lets the call of `take` of this number fail. The first call has number 1.
    ///
    /// # Errors
    ///
    /// `Memory` where memory for the number is wanting; nothing has changed then.
    pub fn fail_at(&mut self, call: u64) -> Result<(), Memory>
        ensures listed { OnOk result (self.new ≡ record self.old { failing = self.old.failing ++ call ∷ [] }) }
        ensures kept { OnErr result (self.new ≡ self.old) }
    {
        self.failing.push(call)?;
        Ok(())
    }
}

impl Shelf for MemShelf {
    ghost use Rattle.std.specs.Prelude.{Some};
    ghost use Rattle.ccai_io.specs.Outside.{Holds, Refused};
    ghost use Rattle.ccai_io.specs.MemShelf.{IsRefusal, after_refusal, answer_of, called};

    ghost files = { λ shelf. Some shelf.files };

    ghost absences = { λ shelf. shelf.absences };

    ghost faults = { λ shelf. shelf.faults };

    /// The bytes of the file of a name.
    ///
    /// # Errors
    ///
    /// `Failed` exactly at the calls that `fail_at` listed, `Missing` exactly at any other call
    /// where no file has the name, and `Memory` where memory for the bytes is wanting.
    fn take(&mut self, alloc: Global, name: &str) -> Result<Vec<u8>, ShelfFault>
        ensures given { IfOk result (λ bytes. Holds (Some self.old.files) name.now (Some bytes.items)) }
        ensures calm { OnOk result ((self.new.absences ≡ self.old.absences) × (self.new.faults ≡ self.old.faults)) }
        ensures refused { IfErr result (λ fault. Refused fault (Some self.old.files) name.now self.old.absences self.old.faults self.new.absences self.new.faults) }
        ensures kept { Some self.new.files ≡ Some self.old.files }
        ensures answer { MatchResult result (λ bytes. answer_of self.old name.now ≡ Ok bytes.items) (λ fault. IsRefusal fault (answer_of self.old name.now)) }
        ensures after { MatchResult result (λ _. self.new ≡ called self.old) (λ fault. self.new ≡ after_refusal self.old fault) }
    {
        let fails = is_listed(&self.failing, self.calls);
        self.calls = self.calls.saturating_add(1);
        if fails {
            self.faults = self.faults.saturating_add(1);
            return Err(ShelfFault::Failed);
        }
        match self.files.get(name.as_bytes()) {
            Some(bytes) => Vec::from_slice(alloc, bytes).map_err(|_| ShelfFault::Memory),
            None => {
                self.absences = self.absences.saturating_add(1);
                Err(ShelfFault::Missing)
            }
        }
    }
}
