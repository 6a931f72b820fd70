//! The rows of operands that are true or false, those of `&&`, `||` and `? :`,
//! and the row of `!` (C11 6.5.3.3p5, 6.5.13p2, 6.5.14p2, 6.5.15p2).

ghost use Rattle.c_typing.specs.Expressions as spec;
ghost use Rattle.c_type_walk.specs.Walks.{Walks};

use crate::refusals::refused;
use c_tree::typed::{Base, Unary};
use c_tree::{FaultKind, Pos};
use c_type_rules::{is_scalar, plain, then_unary, valued};
use c_type_walk::{Around, Found};
use c_typing::{Form, Operand};
use std::alloc::Global;
use word_ops::Memory;

/// An operand that is true or false: a value of scalar type.
///
/// # Errors
///
/// `Memory` where memory is wanting.
pub fn truth_row(
    alloc: Global,
    found: &mut Found,
    around: &Around<'_>,
    place: Pos,
    operand: Operand,
) -> Result<Option<Operand>, Memory>
    ensures { Walks (spec.truth_row place operand) around.now found.old result found.new }
{
    let value = valued(alloc, operand)?;
    if !is_scalar(&value.ctype) {
        return refused(found, around, FaultKind::Mismatch, place, value);
    }
    Ok(Some(value))
}

/// `!` of a value (C11 6.5.3.3p5).
///
/// # Errors
///
/// `Memory` where memory is wanting.
pub(crate) fn not_row(
    alloc: Global,
    found: &mut Found,
    around: &Around<'_>,
    place: Pos,
    value: Operand,
) -> Result<Option<Operand>, Memory>
    ensures { Walks (spec.not_row place value) around.now found.old result found.new }
{
    if !is_scalar(&value.ctype) {
        return refused(found, around, FaultKind::Mismatch, place, value);
    }
    Ok(Some(then_unary(Form::Value, plain(alloc, Base::Int), Unary::Not, value)?))
}
