//! The grammar of C initialisers, declarations, statements, definitions and units as a parser on lists of tokens, and the
//! laws that tie it to the spelling, the levels and the nesting of trees.
//!
//! There is no code here but the functions of `laws`. The parser stands in `specs/Read`, over the steps and the
//! productions of `c_grammar`; `specs/Examples` computes short lists; `specs/Laws` has the proofs, one file a production.
#![tactic(auto)]

mod laws;

pub use laws::{examples, reads_units, unit_spelling_is_unique};
