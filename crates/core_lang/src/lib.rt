//! Core code: the structured language that typed C is lowered to, and that the abstract interpreter reads.
//!
//! A program has functions and static objects. A function has variables and temporaries by their
//! numbers, local objects by theirs, and a list of acts, some of which have lists of acts in them:
//! blocks and loops, which a break leaves, and choices. There is no jump but a break and a return.
//!
//! The definitions stand in `specs/`: the state in which acts run in `State`; what acts do in `Acts`,
//! `Copying` and `Filling`; calls and the run of a program in `Run`; where objects lie in `Layout`;
//! when a program is well formed in `WellFormed`; what acts count for in `Counts`; when a layout keeps
//! objects apart in `Addresses`; what more depth changes in `Depth`; induction over acts in
//! `Following`. `specs/Laws` has the laws that proofs of other crates cite, by subject, and the
//! functions of `laws` name the main ones. `specs/Examples` and `specs/Instances` compute closed
//! examples, which the functions of `examples` name.
#![tactic(auto)]

mod act;
pub mod examples;
pub mod laws;
mod program;

pub use act::{Atom, Core, PointerOp};
pub use program::{CoreFunction, Part, Program, Start, StaticObject};
