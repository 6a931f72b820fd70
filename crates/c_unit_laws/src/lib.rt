//! Laws of what typing gives: that it hangs together, over all units.
//!
//! There is no running code here; each law stands on a function that does nothing.
#![tactic(auto)]

mod laws;

pub use laws::{functions_are_there, jumps_and_labels_fit, objects_fit};
