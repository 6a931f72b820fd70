//! The row of a value that an object is given, by an initialiser, as an argument or by
//! `return` (C11 6.5.16.1p1).

ghost use Rattle.std.specs.Prelude.{◌≡◌, IfOk};
ghost use Rattle.c_typing.specs.Types as types;
ghost use Rattle.c_typing.specs.Operands as operands;
ghost use Rattle.c_typing.specs.declared.operand.Operand.{Operand};
ghost use Rattle.c_typing.specs.Expressions as spec;
ghost use Rattle.c_type_walk.specs.Walks.{Walks};

use crate::refusals::refused;
use crate::trees::converted_tree;
use c_tree::typed::{CType, TExpr};
use c_tree::{FaultKind, Pos};
use c_type_rules::{alike, copied, is_assignable, is_struct, unqualified, valued};
use c_type_walk::{Around, Found};
use c_typing::Operand;
use std::alloc::Global;
use word_ops::Memory;

/// The value that an object of this type is given, converted to it (C11 6.5.16.1p1, p2).
///
/// # Errors
///
/// `Memory` where memory is wanting.
pub fn given_row(
    alloc: Global,
    found: &mut Found,
    around: &Around<'_>,
    place: Pos,
    ctype: &CType,
    operand: Operand,
) -> Result<Option<TExpr>, Memory>
    ensures { Walks (spec.given_row place ctype.now operand) around.now found.old result found.new }
{
    let value = valued(alloc, operand)?;
    if is_struct_given(ctype, &value.ctype) {
        return refused(found, around, FaultKind::StructValue, place, value);
    }
    if !is_assignable(ctype, &value) {
        return refused(found, around, FaultKind::Mismatch, place, value);
    }
    Ok(Some(kept(alloc, ctype, value)?))
}

/// A value as an object of this type keeps it.
fn kept(alloc: Global, ctype: &CType, value: Operand) -> Result<TExpr, Memory>
    ensures { IfOk result (λ tree. tree ≡ operands.tree_of (operands.converted (types.unqualified ctype.now) value)) }
{
    let Ok(ctype) = copied(alloc, ctype) else {
        drop(value);
        return Err(Memory);
    };
    converted_tree(alloc, unqualified(ctype), value)
}

/// Whether an object of structure type is given a value of the same one, which this profile does not give yet.
pub(crate) fn is_struct_given(ctype: &CType, from: &CType) -> bool
    ensures { (o : Operand) → o.ctype ≡ from.now → result ≡ spec.is_struct_given ctype.now o }
{
    is_struct(ctype) && alike(ctype, from)
}
