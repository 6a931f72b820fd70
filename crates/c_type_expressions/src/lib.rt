//! The rows of expressions: what each operator says of its operands, and the typed tree that it makes (C11 6.5).
//!
//! Each function does what a row of `c_typing`'s `Expressions` says, and its contract names that row. The operands have been
//! typed before, so there are no trees of the source here. A chain of `? :` and a chain of assignments are read from the
//! right; `Chain` and `Assigned` keep what was passed, so that the tree of the whole is made once.
#![tactic(auto)]

mod arithmetic;
mod assignments;
mod calls;
mod casts;
mod chains;
mod given;
mod increments;
mod members;
mod names;
mod places;
mod prefixes;
mod refusals;
mod sequences;
mod sizes;
mod stand_in;
mod strings;
mod trees;
mod truth;
mod writing;

pub use arithmetic::{binary_row, index_row};
pub use assignments::{Assigned, Assignment, assign_row, assigned_end, assigned_value};
pub use calls::{Argument, call_row, is_library};
pub use chains::{Chain, Choices, chain_end, chain_value, conditional_row};
pub use given::given_row;
pub use increments::increment_row;
pub use members::{arrow_row, member_row};
pub use names::name_row;
pub use prefixes::{Prefixing, prefix_row};
pub use sequences::{all_of, any_of, comma_of};
pub use sizes::size_row;
pub use strings::string_row;
pub use truth::truth_row;
