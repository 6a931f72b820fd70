//! When a typed unit is as core code and the limits need it. The definitions of c_tree say of what kind each value is; those
//! here say where bytes, labels and initial values lie, and how many acts a function comes to by its tokens.
//!
//! There is no running code here. `specs/Weights` tells what lowering makes of a typed tree, `specs/Statements` what is asked of
//! the statements of a function, `specs/Units` when a unit hangs together.
#![tactic(auto)]

pub mod examples;
