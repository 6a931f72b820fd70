//! The rows of operators that take two values (C11 6.5.5 to 6.5.12, 6.5.2.1), and of `+`,
//! `-` and `~` of one (C11 6.5.3.3).

ghost use Rattle.std.specs.Prelude.{◌≡◌, IfOk};
ghost use Rattle.c_typing.specs.declared.operand.Form.TheVariants as form;
ghost use Rattle.c_typing.specs.declared.operator.Row.TheVariants as row;
ghost use Rattle.c_typing.specs.Operands as operands;
ghost use Rattle.c_typing.specs.Expressions as spec;
ghost use Rattle.c_type_walk.specs.Walks.{Walks};
ghost use Rattle.c_type_expressions.specs.Prefixes.{done_to};

use crate::places::led_to;
use crate::refusals::refused;
use crate::trees::converted_tree;
use c_tree::typed::{Step, Unary};
use c_tree::{FaultKind, Mark, Pos};
use c_type_rules::{
    binary, converted, copied, index, is_integer, promoted, promoted_type, sign_of, then_step,
    then_unary, valued,
};
use c_type_walk::{Around, Found};
use c_typing::{Form, Operand, Plan, Row};
use std::alloc::Global;
use word_ops::Memory;

/// A binary operator other than `&&`, `||` and `,` (C11 6.5.5 to 6.5.12).
///
/// # Errors
///
/// `Memory` where memory is wanting.
pub fn binary_row(
    alloc: Global,
    found: &mut Found,
    around: &Around<'_>,
    mark: Mark,
    left: Operand,
    right: Operand,
) -> Result<Option<Operand>, Memory>
    ensures { Walks (spec.binary_row mark left right) around.now found.old result found.new }
{
    let Ok(left) = valued(alloc, left) else {
        drop(right);
        return Err(Memory);
    };
    let Ok(right) = valued(alloc, right) else {
        drop(left);
        return Err(Memory);
    };
    let Ok(row) = binary(alloc, &found.state.structs, mark.punct, &left, &right) else {
        drop((left, right));
        return Err(Memory);
    };
    match row {
        Row::Planned(plan) => Ok(Some(planned(alloc, plan, left, right)?)),
        Row::Wrong(kind) => refused(found, around, kind, mark.place, (left, right)),
        Row::Other => refused(
            found,
            around,
            FaultKind::Mismatch,
            mark.place,
            (left, right),
        ),
    }
}

/// `a[i]`, which is `*(a + i)` (C11 6.5.2.1p2).
///
/// # Errors
///
/// `Memory` where memory is wanting.
pub fn index_row(
    alloc: Global,
    found: &mut Found,
    around: &Around<'_>,
    place: Pos,
    left: Operand,
    right: Operand,
) -> Result<Option<Operand>, Memory>
    ensures { Walks (spec.index_row place left right) around.now found.old result found.new }
{
    let Ok(left) = valued(alloc, left) else {
        drop(right);
        return Err(Memory);
    };
    let Ok(right) = valued(alloc, right) else {
        drop(left);
        return Err(Memory);
    };
    let Ok(row) = index(alloc, &found.state.structs, &left, &right) else {
        drop((left, right));
        return Err(Memory);
    };
    match row {
        Row::Planned(plan) => element(alloc, found, around, place, plan, left, right),
        Row::Wrong(kind) => refused(found, around, kind, place, (left, right)),
        Row::Other => refused(found, around, FaultKind::Mismatch, place, (left, right)),
    }
}

/// The lvalue to which the sum of a pointer and an integer leads.
fn element(
    alloc: Global,
    found: &mut Found,
    around: &Around<'_>,
    place: Pos,
    plan: Plan,
    left: Operand,
    right: Operand,
) -> Result<Option<Operand>, Memory>
    ensures { Walks (spec.index_by place left right (row.Planned plan)) around.now found.old result found.new }
{
    let address = planned(alloc, plan, left, right)?;
    led_to(alloc, found, around, place, address)
}

/// What a row of the table of operators plans for two operands.
fn planned(alloc: Global, plan: Plan, left: Operand, right: Operand) -> Result<Operand, Memory>
    ensures { IfOk result (λ o. o ≡ spec.planned plan left right) }
{
    let Plan {
        left: left_type,
        right: right_type,
        operator,
        result,
    } = plan;
    let Ok(right) = converted_tree(alloc, right_type, right) else {
        drop((left_type, result, left));
        return Err(Memory);
    };
    let Ok(left) = converted(alloc, left_type, left) else {
        drop((result, right));
        return Err(Memory);
    };
    then_step(Form::Value, result, Step::Binary(operator, right), left)
}

/// The unary operators that promote their operand (C11 6.5.3.3p2 to p4).
#[derive(Clone, Copy)]
pub(crate) enum Promoting {
    /// `+`
    Plus,
    /// `-`
    Minus,
    /// `~`
    Complement,
}

/// `+`, `-` or `~` of an operand of integer type, which is promoted (C11 6.5.3.3p1 to p4).
pub(crate) fn promoted_row(
    alloc: Global,
    found: &mut Found,
    around: &Around<'_>,
    operator: Promoting,
    place: Pos,
    operand: Operand,
) -> Result<Option<Operand>, Memory>
    ensures { Walks (spec.promoted_row (done_to operator) place (operands.valued operand)) around.now found.old result found.new }
{
    let value = valued(alloc, operand)?;
    if !is_integer(&value.ctype) {
        return refused(found, around, FaultKind::Mismatch, place, value);
    }
    let value = converted(alloc, promoted_type(alloc, &value.ctype), value)?;
    Ok(Some(done(alloc, operator, value)?))
}

/// What the operator does to a promoted value.
fn done(alloc: Global, operator: Promoting, value: Operand) -> Result<Operand, Memory>
    ensures { IfOk result (λ o. o ≡ done_to operator value) }
{
    match operator {
        Promoting::Plus => Ok(value),
        Promoting::Minus => {
            let sign = sign_of(promoted(value.ctype.base));
            done_at_its_type(alloc, Unary::Negate(sign), value)
        }
        Promoting::Complement => done_at_its_type(alloc, Unary::Complement, value),
    }
}

/// An operator that gives a value of the type of its operand.
fn done_at_its_type(alloc: Global, unary: Unary, value: Operand) -> Result<Operand, Memory>
    ensures { IfOk result (λ o. o ≡ operands.then_unary form.Value value.ctype unary value) }
{
    let Ok(ctype) = copied(alloc, &value.ctype) else {
        drop(value);
        return Err(Memory);
    };
    then_unary(Form::Value, ctype, unary, value)
}
