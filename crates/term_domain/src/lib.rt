//! The domain of terms alone, the bottom of every tower: it shares operations, knows constants and
//! keeps what was assumed of phis.
#![tactic(auto)]

mod key;
mod table;
mod terms;

pub use terms::{TermMark, Terms};
