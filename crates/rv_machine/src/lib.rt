//! The machine that runs images of RV32IM.
//!
//! `load` makes a machine of an image, `step` takes one step of it and `run` at most so many, with a
//! source of input and a sink of output. A step is the instruction at pc, decoded by the table, with the
//! effect that the RISC-V unprivileged manual gives its row, or a call of the environment.
//!
//! The text is decoded once, as it is loaded, and no contract speaks of that: a machine is seen as the
//! words of its text, its registers, its pc and its memory.
#![tactic(auto)]

mod act;
mod answer;
mod arithmetic;
mod bytes;
mod decoded;
mod laws;
mod loader;
mod machine;
mod pc;
mod registers;
mod request;
mod runner;
mod stretch;

pub use answer::{End, Stepped};
pub use laws::{
    after_laws, arithmetic_laws, bytes_laws, cell_laws, examples, register_laws, sound_laws,
    step_laws,
};
pub use loader::load;
pub use machine::Machine;
pub use runner::{run, step};
