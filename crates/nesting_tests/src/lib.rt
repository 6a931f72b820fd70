//! Sources that take much stack, and how deep they nest. There is no code.
//!
//! They are no cases of `front_cases`: a program of the gate is also run as Rattle's own compiler builds it, which keeps every
//! temporary and takes five times the stack. The tests want `ulimit -s 131072` under `rt try` for the same reason.
#![tactic(auto)]

#[cfg(test)]
mod nesting;
