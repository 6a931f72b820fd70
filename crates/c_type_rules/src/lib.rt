//! Rules on types and on operands, without any state.
//!
//! Each function computes one definition of `c_typing`, and its contract says which. `shapes` tells what a type is at its
//! outside and lends what it is derived from; `making`, `copies`, `kinds`, `qualifiers`, `compatibility` and `composites`
//! make, copy, test, qualify, compare and unite types. `conversions` has the integer conversions, `operands`, `values`,
//! `constants` and `assignable` what is asked of operands and done with them, and `operators` and `choice` the operators
//! that take two.
#![tactic(auto)]

mod assignable;
mod choice;
mod compatibility;
mod composites;
mod constants;
mod conversions;
mod copies;
mod kinds;
mod making;
mod modifiable;
mod operands;
mod operators;
mod pointers;
mod qualifiers;
mod shapes;
mod values;

pub use assignable::is_assignable;
pub use choice::chosen_by;
pub use compatibility::{alike, compatible, same_type};
pub use composites::composite;
pub use constants::{constant_in, is_null_constant};
pub use conversions::{
    base_of_constant, common, conversion_to, integer_rank, is_signed, promoted, scalar_of, sign_of,
    width_of_base,
};
pub use copies::copied;
pub use kinds::{
    is_array, is_bool, is_character, is_function, is_integer, is_pointer, is_scalar, is_struct,
    is_void,
};
pub use making::{derived_from, element, in_word, plain, pointer_to, target};
pub use modifiable::is_read_only;
pub use operands::{
    as_form, in_register, is_lvalue, null, number, numbered, operand, then_step, then_unary,
    tree_of, value,
};
pub use operators::{binary, common_type, contained, promoted_type};
pub use pointers::index;
pub use qualifiers::{constant_if, is_constant, unqualified, with_constant};
pub use shapes::{LentType, TypeShape, lend, shape, target_of};
pub use values::{converted, dropping, valued};
