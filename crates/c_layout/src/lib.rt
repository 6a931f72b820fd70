//! Sizes, alignments and offsets of C types, and the values of integer constant expressions.
//!
//! A structure type is a number in `Tags`, the list of the structure types of a unit: it is declared
//! without members, and completed once by its members. What a number of 64 bits does not hold, a size
//! or an offset, is told as 2^64 - 1.
//!
//! `specs/Sizes` has the sizes and alignments of types, `specs/Structures` where members lie, and
//! `specs/Constants` which expressions are integer constant expressions, and their values.
#![tactic(auto)]

mod constants;
mod laws;
mod sizes;
mod structures;
mod tags;

pub use constants::{constant, constant_after};
pub use laws::{
    complete_types_keep_their_size, members_lie_in_their_structure, next_multiple_is_the_least,
    steps_are_folded_as_their_tree,
};
pub use sizes::{align, size};
pub use structures::{complete, lay_out, member, member_offset};
pub use tags::{MemberLayout, StructLayout, Tags};
