//! A list of values in which the first place of a value is found in constant time.
//!
//! Contracts see the list alone. Beside its values a table keeps of each of them the first place, so that a value is
//! copied once where it comes for the first time.
#![tactic(auto)]

mod list;
mod try_clone;

pub use list::IndexedList;
pub use try_clone::TryClone;
