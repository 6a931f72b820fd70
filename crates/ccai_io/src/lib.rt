//! Where the program's bytes come from and where they go.
//!
//! Three traits stand for the outside: a shelf of files, a source of input bytes and a sink of
//! output bytes. Each tells by its ghost members what it holds, or that it does not tell, and counts
//! its faults; a call answers a fault only where the count rose in that very call.
#![tactic(auto)]

mod byte_queue;
mod calls;
mod chunk_reader;
mod file_shelf;
mod file_table;
mod mem_shelf;
mod mem_sink;
mod mem_source;
mod outside;
mod repeat;
mod std_sink;
mod std_source;
mod sure_shelf;
mod sure_source;

pub use file_shelf::FileShelf;
pub use mem_shelf::MemShelf;
pub use mem_sink::MemSink;
pub use mem_source::MemSource;
pub use outside::{Failed, Shelf, ShelfFault, Sink, Source};
pub use std_sink::StdSink;
pub use std_source::StdSource;
pub use sure_shelf::SureShelf;
pub use sure_source::SureSource;
