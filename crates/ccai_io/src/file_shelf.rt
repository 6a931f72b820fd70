//! The adapter over the files of the system. It tells no content, and counts what is not found and what
//! fails.
ghost use Rattle.std.specs.Prelude.{◌≡◌, ◌^◌, ◌≤◌, IfErr, IfOk, MatchResult, OnOk, length};

use crate::chunk_reader::ChunkReader;
use crate::outside::{Shelf, ShelfFault};
use crate::repeat::repeated;
use std::alloc::Global;
use std::io::{ErrorKind, Read};
use std::marker::Model;
use std::rt::Files;
use std::{fs, io};

// How many bytes a file has at most.
const LIMIT: usize = 1 << 30;

/// The files of the system, taken by their paths.
///
/// It does not tell which files there are. Contracts see how many files the system did not find and
/// how many times a file could not be read, counts that stand still at 2^64 - 1.
#[derive(Drop)]
pub struct FileShelf<'a, R: Files> {
    rt: &'a R,
    absences: u64,
    faults: u64,
}

impl<'a, R: Files> Model for FileShelf<'a, R> {
    ghost use Rattle.ccai_io.specs.FileShelf.{ShelfCounts};

    ghost Value = { ShelfCounts };

    ghost view = { λ shelf. record { absences = shelf.absences; faults = shelf.faults } };
}

impl<'a, R: Files> FileShelf<'a, R> {
    /// The files that the runtime reaches. No file was missing and none has failed yet.
    pub fn new(rt: &'a R) -> Self
        ensures { result ≡ record { absences = 0; faults = 0 } }
    {
        FileShelf {
            rt,
            absences: 0,
            faults: 0,
        }
    }
}

// What the error of a call on a file means for the shelf.
fn fault_of(error: &io::Error) -> ShelfFault {
    match error.kind() {
        ErrorKind::NotFound => ShelfFault::Missing,
        ErrorKind::OutOfMemory => ShelfFault::Memory,
        _ => ShelfFault::Failed,
    }
}

// The bytes of an open file, at most 2^30.
fn read_whole<F: Read + Drop>(alloc: Global, file: F) -> Result<Vec<u8>, ShelfFault>
    ensures { IfOk result (λ bytes. length bytes.items ≤ 2 ^ 30) }
{
    let mut bytes = Vec::new(alloc);
    let mut chunk = ChunkReader::new(file);
    loop {
        let count = chunk.fill().map_err(|error| fault_of(&error))?;
        if count == 0 {
            return Ok(bytes);
        }
        if count > LIMIT - bytes.len() {
            return Err(ShelfFault::Failed);
        }
        bytes
            .extend_from_slice(&chunk.buffer()[..count])
            .map_err(|_| ShelfFault::Memory)?;
    }
}

impl<'a, R: Files> Shelf for FileShelf<'a, R> {
    ghost use Rattle.std.specs.Prelude.{None, Some};
    ghost use Rattle.ccai_io.specs.Outside.{Holds, Refused};
    ghost use Rattle.ccai_io.specs.FileShelf.{counted};

    ghost files = { λ shelf. None };

    ghost absences = { λ shelf. shelf.absences };

    ghost faults = { λ shelf. shelf.faults };

    /// The bytes of the file at a path.
    ///
    /// # Errors
    ///
    /// `Missing` where the system does not find the file, `Memory` where memory is wanting, and
    /// `Failed` where the file cannot be read for another reason, where a call is interrupted more than
    /// 1,000 times in a row, and where the file has more than 2^30 bytes.
    fn take(&mut self, alloc: Global, name: &str) -> Result<Vec<u8>, ShelfFault>
        ensures given { IfOk result (λ bytes. Holds None name.now (Some bytes.items)) }
        ensures calm { OnOk result ((self.new.absences ≡ self.old.absences) × (self.new.faults ≡ self.old.faults)) }
        ensures refused { IfErr result (λ fault. Refused fault None name.now self.old.absences self.old.faults self.new.absences self.new.faults) }
        ensures counts { MatchResult result (λ _. self.new ≡ self.old) (λ fault. self.new ≡ counted self.old fault) }
        ensures limit { IfOk result (λ bytes. length bytes.items ≤ 2 ^ 30) }
    {
        let answer = match repeated(&mut self.rt, |rt| fs::open(*rt, name)) {
            Ok(file) => read_whole(alloc, file),
            Err(error) => Err(fault_of(&error)),
        };
        match &answer {
            Err(ShelfFault::Missing) => self.absences = self.absences.saturating_add(1),
            Err(ShelfFault::Failed) => self.faults = self.faults.saturating_add(1),
            Ok(_) | Err(ShelfFault::Memory) => {}
        }
        answer
    }
}
