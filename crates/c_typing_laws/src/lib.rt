//! Laws of the definition of typing, over all units.
//!
//! There is no running code here; each law stands on a function that does nothing.
#![tactic(auto)]

mod laws;

pub use laws::clean_units_are_typed;
