//! The files of the shelves in memory: a list that contracts see as a map from names to bytes.
ghost use Rattle.std.specs.Prelude.{◌≡◌, ◌<◌, HoldsAt, IfNone, IfSome, OnErr, OnOk, length, take};
ghost use Rattle.std.specs.FinMap.{empty, insert};
ghost use Rattle.std.specs.Option.{option_copied};
ghost use Rattle.ccai_io.specs.Outside.{file_of};
ghost use Rattle.ccai_io.specs.Table.{files_of};

use std::alloc::Global;
use std::marker::Model;
use word_ops::{Memory, Text};

/// A file in memory.
#[derive(Debug, Drop)]
pub(crate) struct StoredFile {
    name: Text,
    bytes: Text,
}

/// Files in memory, which contracts see as the map from their names to their bytes.
#[derive(Debug, Drop)]
pub(crate) struct FileTable {
    alloc: Global,
    files: Vec<StoredFile>,
}

impl Model for FileTable {
    ghost use Rattle.std.specs.Coded.{coded_list, coded_ℕ};
    ghost use Rattle.std.specs.FinMap.{code};
    ghost use Rattle.ccai_io.specs.Outside.{Files};

    ghost Value = { Files };

    ghost coded = { code (coded_list coded_ℕ) (coded_list coded_ℕ) };

    ghost use Rattle.ccai_io.specs.Table.{files_of};

    ghost view = { λ table. files_of table.files.items };
}

impl FileTable {
    /// No file.
    pub(crate) fn new(alloc: Global) -> Self
        ensures { result ≡ empty }
    {
        FileTable {
            alloc,
            files: Vec::new(alloc),
        }
    }

    /// The bytes of the file of a name.
    #[tactic(auto, using(crate::proofs::Tables::file_at))]
    pub(crate) fn get(&self, name: &[u8]) -> Option<&[u8]>
        ensures { option_copied result ≡ file_of self.now name.now }
    {
        let i = position_of(&self.files, name)?;
        Some(self.files[i].bytes.as_slice())
    }

    /// Puts a file, in the place of the one of its name where there is one.
    ///
    /// # Errors
    ///
    /// `Memory` where memory is wanting; nothing has changed then.
    #[tactic(auto, using(crate::proofs::Tables::replaced, crate::proofs::Tables::added))]
    pub(crate) fn put(&mut self, name: &[u8], bytes: &[u8]) -> Result<(), Memory>
        ensures put { OnOk result (self.new ≡ insert self.old name.now bytes.now) }
        ensures kept { OnErr result (self.new ≡ self.old) }
    {
        let bytes = Text::from_vec(Vec::from_slice(self.alloc, bytes)?);
        if let Some(i) = position_of(&self.files, name) {
            self.files[i].bytes = bytes;
            return Ok(());
        }
        let name = Text::from_vec(Vec::from_slice(self.alloc, name)?);
        self.files.push(StoredFile { name, bytes })?;
        Ok(())
    }
}

// The place of the first file of a name.
fn position_of(files: &[StoredFile], name: &[u8]) -> Option<usize>
    ensures within { IfSome result (λ i. i < length files.now) }
    ensures named { IfSome result (HoldsAt (λ file. file.name ≡ name.now) files.now) }
    ensures first { IfSome result (λ i. file_of (files_of (take i files.now)) name.now ≡ None) }
    ensures absent { IfNone result (file_of (files_of files.now) name.now ≡ None) }
{
    for (i, file) in files.iter().enumerate() {
        if file.name.as_slice() == name {
            return Some(i);
        }
    }
    None
}
