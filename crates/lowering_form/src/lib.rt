//! Lowering: the core code of a typed unit, as definitions (C11 6.5, 6.7.9, 6.8, 6.9).
//!
//! There is no running code here. `specs/` says of each form which acts it is: `Code` what a list of
//! acts under construction is, `Places` where objects are kept, `Operators` the acts of operators,
//! `Expressions`, `Objects` and `Statements` those of each node of a tree, `Functions` the core
//! function of a definition and the core program of a unit. `Added` says what lowering adds, and what
//! a tree weighs; `Examples` computes closed examples. `specs/Laws` has the lemmas that proofs of
//! other crates cite, and the functions of `laws` name the main ones.
#![tactic(auto)]

pub mod laws;
mod place;

pub use place::Place;
