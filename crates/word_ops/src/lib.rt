//! Words of 32 bits, the values and the store of a C program, and how a run goes on and ends.
//!
//! Every layer above speaks of these: the operations that core code, terms and machine code have in
//! common, the regions in which objects lie, and the input, output and clock of a run. Beside them
//! stand the small types of the project: `Memory`, `Text`, `Items` and `Boxed`.
//!
//! The definitions stand in `specs/`: words and their operations in `Word` and `Operation`; objects,
//! loads and stores in `Store` and `Access`; operations on values in `Values`; the words of values and
//! what is asked of addresses in `Addresses`; how stores may differ in `Changes`; runs in `Run`,
//! `Outcome`, `Following` and `Clock`. `specs/Laws` has the laws that proofs of other crates cite, by
//! subject, and the functions of `laws` name the main ones. `specs/Examples` and `specs/Instances`
//! compute closed examples.
#![tactic(auto)]

mod arithmetic;
mod laws;
mod memory;
mod operation;
mod text;

pub use arithmetic::{apply, machine, narrow};
pub use laws::{
    loads_and_stores, operations_on_values, operations_on_words, runs_with_a_longer_clock,
    words_of_the_table,
};
pub use memory::Memory;
pub use operation::{Op, Width};
pub use sqlite_items::{Boxed, Items};
pub use text::Text;
