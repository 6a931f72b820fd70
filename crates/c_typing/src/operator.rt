//! A row of the table of operators (C11 6.5): to which types operands are converted, what is done, and the type of the
//! result. Values that typing gives on its way; no walk stands here.

use c_tree::FaultKind;
use c_tree::typed::{Arithmetic, CType};

/// What a row of the table of operators plans.
#[derive(Drop)]
pub struct Plan {
    /// the type to which the left operand is converted
    pub left: CType,
    /// the type to which the right operand is converted
    pub right: CType,
    /// what is done
    pub operator: Arithmetic,
    /// the type of the result
    pub result: CType,
}

/// What a row of the table of operators says of two operands.
#[derive(Drop)]
pub enum Row {
    /// it does not take them
    Other,
    /// it takes them, and there is this fault at the operator
    Wrong(FaultKind),
    /// it takes them
    Planned(Plan),
}
