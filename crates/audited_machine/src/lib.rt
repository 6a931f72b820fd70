//! The account of a machine's run, and the machine that keeps it: what the listing of an image says of the words of its terms, held
//! against the run step by step.
//!
//! A listing tells of each term where its word is made, of each effect where it is done, and of each edge which words it brings.
//! Read along a run it gives an account: for each call that goes on, the words of its terms. This crate has no code; the
//! definitions stand in `specs/`: the records by functions in `Functions`, the account in `Account`, what it learns and what is
//! asked of it as the machine arrives at an instruction in `Arrival`, and behind a step in `Settling`, and the machine with its
//! account in `Audit`. `specs/Laws` has the laws that proofs of other crates cite, and `specs/Examples` closed audits, computed.
#![tactic(auto)]

mod examples;
mod laws;

pub use examples::{audits_of_records, audits_without_records};
pub use laws::audited_machine_is_the_machine;
