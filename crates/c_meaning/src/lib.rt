//! What a C source means: the run of a typed unit, as definitions.
//!
//! There is no running code here. `specs/` says what an expression gives (`Expressions`, over the
//! operators of `Operators`), what a statement does (`Statements`), and what a unit does from the
//! first call of main to its end (`Units`); `Environment` says what names stand for, and word_ops what
//! values, objects and runs are. Each definition goes by the structure of the tree, loops by the ticks
//! that are left, and calls by the depth, so each is total and can be computed.
//!
//! The functions of `laws` carry what is true of every unit. `specs/Laws` has the lemmas that proofs of
//! other crates cite, and `specs/Examples` computes closed examples.
#![tactic(auto)]

mod laws;

pub use laws::{
    calls_with_more_depth, runs_take_what_is_there, runs_with_a_longer_clock, runs_with_more_depth,
    values_are_of_their_kinds,
};
