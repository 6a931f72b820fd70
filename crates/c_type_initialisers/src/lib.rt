//! Initialisers: where the items of an initialiser go, and what its parts come to (C11 6.7.9).
//!
//! `fill` walks over the tree of an initialiser and finds for each of its expressions which part of the object it
//! initialises, where inner braces may be left out. `initialiser_row` makes of these parts the initial value of an automatic
//! object, `starts_row` the bytes and addresses of a static one. The aggregates that are being filled stand in a list with
//! the innermost last (`specs/Stacks`); the definitions in `c_typing` have it first.
#![tactic(auto)]

mod addresses;
mod bytes;
mod constants;
mod descent;
mod expressions;
mod frames;
mod initialisers;
mod leaves;
mod parts;
mod sizes;
mod starts;
mod turns;
mod values;

pub use initialisers::{fill, first_of_initialiser};
pub use starts::starts_row;
pub use values::initialiser_row;
