//! What no contract can say: that the adapters do what the system does, and each type once through its
//! trait.

mod adapters;
mod memory;

use ccai_io::{Failed, Shelf, ShelfFault, Sink, Source};
use std::alloc::Global;
use std::process::Abort;

// Takes a file from any shelf, and compares the answer.
fn expect_file<S: Shelf>(
    rt: &impl Abort,
    shelf: &mut S,
    alloc: Global,
    name: &str,
    wanted: Result<&[u8], ShelfFault>,
) {
    match (shelf.take(alloc, name), wanted) {
        (Ok(bytes), Ok(wanted)) => assert_eq!(rt; bytes.as_slice(), wanted, "the file {name}"),
        (Err(fault), Err(wanted)) => assert_eq!(rt; fault, wanted, "the file {name}"),
        (Ok(_), Err(_)) => panic!(rt; "the file {name} was given"),
        (Err(fault), Ok(_)) => panic!(rt; "the file {name} was refused: {fault:?}"),
    }
}

// Takes a byte from any source, and compares the answer.
fn expect_byte<R: Source>(rt: &impl Abort, source: &mut R, wanted: Result<Option<u8>, Failed>) {
    assert_eq!(rt; source.next(), wanted);
}

// Puts a piece to any sink, and compares the answer.
fn expect_put<W: Sink>(rt: &impl Abort, sink: &mut W, piece: &[u8], wanted: Result<(), Failed>) {
    assert_eq!(rt; sink.put(piece), wanted);
}
