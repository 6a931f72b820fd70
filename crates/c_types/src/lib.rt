//! Types a C unit: its first fault, or its typed tree.
//!
//! `check` is the call. `unit` and `definitions` walk over a unit and its function definitions (C11 6.9), `first` tells which
//! of its faults comes first. Each function that walks computes one row of the definitions of `c_typing`, and its contract
//! says which.
#![tactic(auto)]

mod checking;
mod definitions;
mod first;
mod unit;

pub use checking::{CheckFault, check};
