//! What an abstract domain is: the trait with its laws, the worlds that it stands for, and widening.
#![tactic(auto)]

mod chance;
mod domain;
mod widening;

pub use chance::Chance;
pub use domain::Domain;
pub use widening::{Widening, widened};
