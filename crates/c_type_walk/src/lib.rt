//! What typing has found in a C unit up to a place, and what a function that types a construct ensures.
//!
//! The definitions of `c_typing` say of each construct what a walk over it comes to: its faults, what it is, and what is
//! visible behind it. `specs/Walks` says when a function does what a walk says; the crates above have one such function
//! for each construct. They all stand on `Found`, which keeps what a walk has found, and on `Around`, which is fixed
//! around a construct.
#![tactic(auto)]

mod around;
mod found;
mod names;
mod scopes;

pub use around::Around;
pub use found::Found;
pub use names::{copied_text, number_in};
pub use scopes::meaning_of;
