//! The instructions of RV32IM as words: 48 rows, each with a format, a mask and a match.
//!
//! `encode` gives the word of an instruction and `decode` the instruction of a word. Each undoes the
//! other, and a word that matches no row is no instruction. The rows and formats are those of the
//! RISC-V unprivileged manual, chapters "RV32I Base Integer Instruction Set", "M" Extension for Integer
//! Multiplication and Division, and "RV32/64G Instruction Set Listings".
#![tactic(auto)]

mod decoder;
mod encoder;
mod fields;
mod instruction;
mod row;
mod table;

pub use decoder::decode;
pub use encoder::encode;
pub use fields::field;
pub use instruction::{Instr, valid};
pub use row::Row;
pub use table::{Entry, Format, entry_of};
