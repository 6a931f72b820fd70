//! Operands that stand for others of which only the type matters: the rows of compound
//! assignments, `++` and `--` ask the table of operators about them.

ghost use Rattle.std.specs.Prelude.{◌≡◌, true, IfOk, is_some};
ghost use Rattle.c_typing.specs.Types as types;
ghost use Rattle.c_typing.specs.Conversions as conversions;
ghost use Rattle.c_typing.specs.declared.operand.Operand.{Operand};
ghost use Rattle.c_typing.specs.Operands as operands;
ghost use Rattle.c_typing.specs.Operators as operators;
ghost use Rattle.c_type_expressions.specs.Lvalues.{stand_in_of};
ghost use Rattle.c_type_expressions.specs.Assignments.{IsContained};

use c_layout::Tags;
use c_tree::Punct;
use c_tree::typed::CType;
use c_type_rules::{
    TypeShape, binary, copied, is_assignable, number, pointer_to, shape, unqualified,
};
use c_typing::{Operand, Row};
use std::alloc::Global;
use word_ops::Memory;

/// A value of this type that is no null pointer constant. It stands for one with a tree that is wanted elsewhere, since the
/// operators look at nothing else of an operand.
pub(crate) fn stand_in(alloc: Global, ctype: CType) -> Result<Operand, Memory>
    ensures { IfOk result (λ o. o ≡ stand_in_of ctype) }
{
    number(alloc, ctype, 1)
}

/// The type of what an lvalue is as a value (C11 6.3.2.1p2, p3).
pub(crate) fn value_type(alloc: Global, lvalue: &Operand) -> Result<CType, Memory>
    requires { operands.is_lvalue lvalue.now ≡ true }
    ensures { IfOk result (λ t. t ≡ (operands.valued lvalue.now).ctype) }
{
    match shape(&lvalue.ctype) {
        TypeShape::ArrayOf(_, element) => pointer_to(false, element.copied(alloc)?),
        _ => Ok(unqualified(copied(alloc, &lvalue.ctype)?)),
    }
}

/// Whether an operand is assignable to an object of this type, whatever the qualifiers (C11 6.5.16.1p1).
pub(crate) fn takes(alloc: Global, ctype: &CType, operand: &Operand) -> Result<bool, Memory>
    ensures { IfOk result (λ b. b ≡ operands.is_assignable (types.unqualified ctype.now) operand.now) }
{
    let ctype = unqualified(copied(alloc, ctype)?);
    Ok(is_assignable(&ctype, operand))
}

/// The same of a value of the type `given` that is no null pointer constant.
pub(crate) fn takes_value(alloc: Global, ctype: &CType, given: &CType) -> Result<bool, Memory>
    ensures { IfOk result (λ b. b ≡ operands.is_assignable (types.unqualified ctype.now) (stand_in_of given.now)) }
{
    let value = stand_in(alloc, copied(alloc, given)?)?;
    let taken = takes(alloc, ctype, &value);
    drop(value);
    taken
}

/// The same of an lvalue of scalar type and what an operator gives for its value, which has the type `given`.
pub(crate) fn takes_back(alloc: Global, lvalue: &Operand, given: &CType) -> Result<bool, Memory>
    requires lvalue { operands.is_lvalue lvalue.now ≡ true }
    requires scalar { is_some (conversions.scalar_of lvalue.now.ctype) ≡ true }
    ensures { IfOk result (λ b. b ≡ operands.is_assignable (types.unqualified lvalue.now.ctype) (record (operands.valued lvalue.now) { ctype = given.now })) }
{
    takes_value(alloc, &lvalue.ctype, given)
}

/// What the operator in a compound assignment makes of operands of these types.
pub(crate) fn combined_types(
    alloc: Global,
    tags: &Tags,
    operator: Punct,
    left: CType,
    right: CType,
) -> Result<Row, Memory>
    requires { IsContained operator }
    ensures { (l r : Operand) → l.ctype ≡ left → r.ctype ≡ right → IfOk result (λ row. row ≡ operators.binary tags.now operator l r) }
{
    combined_stand_ins(alloc, tags, operator, left, right)
}

fn combined_stand_ins(
    alloc: Global,
    tags: &Tags,
    operator: Punct,
    left: CType,
    right: CType,
) -> Result<Row, Memory>
    ensures { IfOk result (λ row. row ≡ operators.binary tags.now operator (stand_in_of left) (stand_in_of right)) }
{
    let Ok(left) = stand_in(alloc, left) else {
        drop(right);
        return Err(Memory);
    };
    let Ok(right) = stand_in(alloc, right) else {
        drop(left);
        return Err(Memory);
    };
    let row = binary(alloc, tags, operator, &left, &right);
    drop((left, right));
    row
}
