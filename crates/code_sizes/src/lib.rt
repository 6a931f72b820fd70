//! How many words of text and of frame a function of core code comes to, by its acts.
//!
//! The layers between core code and an image turn acts into records, and records into instructions. Each layer promises how many
//! it makes of what it is given; this crate adds these promises up, and has no code. `specs/Weights` says what acts come to in
//! records of a listing, under any weight for each kind of record, `specs/Costs` what they cost as the limits count them, and
//! `specs/Sizes` the words that follow. `specs/Laws` has the lemmas, and the function of `laws` names the bounds.
#![tactic(auto)]

mod laws;

pub use laws::sizes_fit;
