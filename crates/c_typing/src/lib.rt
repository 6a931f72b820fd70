//! Typing of a C unit, as definitions: its first fault, or its typed tree.
//!
//! `specs` says what each construct of a source is given by typing, and which faults stand in it (C11 6.2 to 6.9).
//! `specs/Faults` says which of several faults is told, `specs/Units` what is told of a whole unit, and the files that
//! they name go down to types and operators. The types of what typing has found so far stand here, since the code of
//! the crates above and the definitions speak of them; there is no code but the laws.
#![tactic(auto)]

mod declarator;
mod fault;
mod initialiser;
mod laws;
mod operand;
mod operator;
mod scope;

pub use declarator::{Basis, Parameter, Part};
pub use fault::Fault;
pub use initialiser::{Address, Filled, Frame, Leaf, Piece};
pub use laws::{composite_fits, examples, first_is_told};
pub use operand::{Form, Operand};
pub use operator::{Plan, Row};
pub use scope::{Linkage, Local, Meaning, Scope, State, Tag};
