//! Operands (C11 6.3.2.1): an expression with its type, and whether it is a value, an object or a function.
//! Values that typing gives on its way; no walk stands here.

use c_tree::typed::{CType, Step, TExpr};
use word_ops::Items;

/// What an operand is (C11 6.3.2.1p1).
#[derive(Clone, Copy, PartialEq, Eq)]
pub enum Form {
    /// a value; that of a structure type is the address of the structure
    Value,
    /// an lvalue in memory, by its address
    Place,
    /// the lvalue that the name of an automatic object is
    Named {
        /// the place of the object among those in scope
        place: u32,
        /// its number in the function
        number: u32,
        /// whether it is `register` (C11 6.7.1p6)
        in_register: bool,
    },
}

/// What typing makes of an expression: its type, and what is done.
///
/// An lvalue is kept as the address of its object until it is known whether that object is read, changed, or has its
/// address taken (C11 6.3.2.1).
#[derive(Drop)]
pub struct Operand {
    /// its type; that of an lvalue is the type of the object
    pub ctype: CType,
    /// value or lvalue
    pub form: Form,
    /// what the expression begins with
    pub base: TExpr,
    /// what is then done with its value, so that the steps of one operand stand in one list
    pub steps: Items<Step>,
}
