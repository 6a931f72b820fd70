//! Functions as instructions, before they lie in a text: what a selector, a register allocator and a layout hand on, and when it
//! is right.
//!
//! `code` and `laid` have the types, which those layers share. The definitions stand in `specs/`: the instructions of each
//! operation in `Patterns`, and how they are recognised in `Recognition`; the other instructions in `Instructions`; how a frame
//! is divided in `Frames`; when a graph has the form from which code is selected in `Emitted`, when code over terms is that of
//! its graph in `Selected`; what registers and slots are known to hold, and what glue does to it, in `Contents`; when code over
//! registers and slots does what its graph does in `Assigned`. `specs/Laws` has the laws that proofs of other crates cite, and
//! the functions of `laws` name them.
#![tactic(auto)]

mod code;
mod laid;
mod laws;

pub use code::{Assigned, Code, Loose, Operand, Piece};
pub use laid::Laid;
pub use laws::{constants_in_two_parts, examples, patterns_are_recognised};
