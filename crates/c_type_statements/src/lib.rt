//! Types statements (C11 6.8).
//!
//! The functions over trees are methods of `Walker`, for blocks in `items`, for `if` in `ifs`, for loops in `loops` and for
//! `switch` in `switches`: a statement inside another is walked over by a function value that the walker holds, so that none
//! of them leads back to itself. The one recursive function, `inside`, makes the walker of the statements that may still stand
//! inside one another and hands itself to it. `values` has the expressions in statements and the jumps, `blocks` the objects of
//! a block, `branches` those of an `if`, `switch` the labels and the parts of a `switch`, and `whole` makes statements of their
//! parts. Each function that walks computes one row of the definitions of `c_typing`, and its contract says which.
#![tactic(auto)]

mod blocks;
mod branches;
mod calls;
mod ifs;
mod inside;
mod items;
mod loops;
mod switch;
mod switches;
mod values;
mod walker;
mod whole;

pub use blocks::{Outside, begin_objects, count_items, end_objects};
pub use calls::items_row;
