//! The grammar of C expressions, specifiers and declarators as a parser on lists of tokens, and the laws that tie it to
//! the spelling, the levels and the nesting of trees.
//!
//! There is no code here but the functions of `laws`. The parser stands in `specs/Read`, over the steps of `specs/Input`:
//! `Depth` has the productions with a limit on brackets. What it is held to stands in `specs/Fronts` and
//! `specs/Productions`: Ok comes exactly where the longest front of the tokens that begins a levelled tree is the spelling
//! of one within the limit. `specs/Laws` has the proofs, one file a production; `specs/Examples` computes short lists.
#![tactic(auto)]

mod laws;

pub use laws::{
    declares_no_typedefs, examples, front_is_unique, reads_declarators, reads_expressions,
    reads_specifiers, spelling_is_unique,
};
