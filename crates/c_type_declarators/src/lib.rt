//! Types from specifiers and declarators (C11 6.7.1 to 6.7.3, 6.7.6), from what the parts of a tree come to.
//!
//! Each function computes one row of the definition of typing, and its contract says which: what is given, which faults
//! are told, in their order, and what is declared. What walks over a tree stands in the crate above, which calls these
//! rows. `constants` has integer constant expressions as sizes, `derivations` what a declarator makes of a type, `words`
//! and `specifiers` the type that specifiers name, `tags`, `structures` and `enumerations` what tags and lists declare,
//! and `parameters` the parameters of a function.
#![tactic(auto)]

mod constants;
mod derivations;
mod enumerations;
mod names;
mod parameters;
mod specifiers;
mod structures;
mod tags;
mod words;

pub use constants::{constant_row, count_row};
pub use derivations::{
    array_part, complete_row, declarator_parts, derive, function_part, pointing,
};
pub use enumerations::{
    declared_enumerator, enum_begun, enum_ended, following_number, plain_enumerator,
    valued_enumerator,
};
pub use names::{copied_identifier, name_place};
pub use parameters::{
    adjusted_parameter, is_register, parameter_basis, parameter_given, parameter_named,
};
pub use specifiers::{SpecifierParts, basis_of, typedef_named};
pub use structures::{member_named, members_row, struct_begun};
pub use tags::{enum_tag_row, struct_tag_row};
pub use words::named_by_words;
