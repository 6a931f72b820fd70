//! The rows of `++` and `--` (C11 6.5.2.4, 6.5.3.1): how the object is changed, and which
//! value is given.

ghost use Rattle.std.specs.Prelude.{◌≡◌, true, IfOk};
ghost use Rattle.c_tree.specs.declared.typed.expression.TExpr.TheVariants as x;
ghost use Rattle.c_tree.specs.declared.typed.operator.Primary.TheVariants as primary;
ghost use Rattle.c_typing.specs.Types as types;
ghost use Rattle.c_typing.specs.Conversions as conversions;
ghost use Rattle.c_typing.specs.Operands as operands;
ghost use Rattle.c_typing.specs.Operators as operators;
ghost use Rattle.c_typing.specs.Expressions as spec;
ghost use Rattle.c_type_walk.specs.Walks.{Walks};

use crate::refusals::refused;
use crate::stand_in::{combined_types, takes_back, value_type};
use crate::writing::target_row;
use c_layout::Tags;
use c_tree::typed::{Base, CType, Given, Increment, Primary, TExpr, Unary};
use c_tree::{FaultKind, Mark, Pos, Punct};
use c_type_rules::{
    contained, conversion_to, copied, plain, scalar_of, then_unary, unqualified, value,
};
use c_type_walk::{Around, Found};
use c_typing::{Form, Operand, Plan, Row};
use std::alloc::Global;
use word_ops::Memory;

/// `++` or `--`, which gives the old value or the new one (C11 6.5.2.4p1, p2, 6.5.3.1p1, p2).
///
/// # Errors
///
/// `Memory` where memory is wanting.
pub fn increment_row(
    alloc: Global,
    found: &mut Found,
    around: &Around<'_>,
    mark: Mark,
    given: Given,
    operand: Operand,
) -> Result<Option<Operand>, Memory>
    ensures { Walks (spec.increment_row mark given operand) around.now found.old result found.new }
{
    let Some(operand) = target_row(found, around, mark.place, operand)? else {
        return Ok(None);
    };
    let Ok(row) = stepped(alloc, &found.state.structs, mark.punct, &operand) else {
        drop(operand);
        return Err(Memory);
    };
    match row {
        Row::Planned(plan) => incremented_row(
            alloc, found, around, mark.place, given, operand, plan,
        ),
        Row::Wrong(kind) => refused(found, around, kind, mark.place, operand),
        Row::Other => refused(found, around, FaultKind::Mismatch, mark.place, operand),
    }
}

/// What the operator in `++` or `--` makes of the value of an lvalue and the number 1.
fn stepped(alloc: Global, tags: &Tags, operator: Punct, lvalue: &Operand) -> Result<Row, Memory>
    requires { operands.is_lvalue lvalue.now ≡ true }
    ensures { IfOk result (λ row. row ≡ spec.contained_row tags.now (operators.contained operator) (operands.valued lvalue.now) (operands.number types.int 1)) }
{
    let Some(operator) = contained(operator) else {
        return Ok(Row::Wrong(FaultKind::Mismatch));
    };
    let left = value_type(alloc, lvalue)?;
    combined_types(alloc, tags, operator, left, plain(alloc, Base::Int))
}

/// `++` or `--` of an lvalue for which the operator in it has a plan.
fn incremented_row(
    alloc: Global,
    found: &mut Found,
    around: &Around<'_>,
    place: Pos,
    given: Given,
    lvalue: Operand,
    plan: Plan,
) -> Result<Option<Operand>, Memory>
    requires { operands.is_lvalue lvalue ≡ true }
    ensures { Walks (spec.increment_if place given lvalue (conversions.scalar_of lvalue.ctype) plan) around.now found.old result found.new }
{
    let Some(scalar) = scalar_of(&lvalue.ctype) else {
        return refused(found, around, FaultKind::Mismatch, place, (lvalue, plan));
    };
    let Ok(is_taken) = takes_back(alloc, &lvalue, &plan.result) else {
        drop((lvalue, plan));
        return Err(Memory);
    };
    if !is_taken {
        return refused(found, around, FaultKind::Mismatch, place, (lvalue, plan));
    }
    let operator = plan.operator;
    drop(plan);
    let increment = Increment {
        scalar,
        operator,
        conversion: conversion_to(&lvalue.ctype),
        given,
    };
    Ok(Some(incremented(alloc, increment, lvalue)?))
}

/// The value of `++` or `--`: an automatic object is changed by its name, and another object by its address.
fn incremented(alloc: Global, increment: Increment, lvalue: Operand) -> Result<Operand, Memory>
    ensures { IfOk result (λ o. o ≡ spec.incremented lvalue.form (types.unqualified lvalue.ctype) increment lvalue) }
{
    let Ok(ctype) = copied(alloc, &lvalue.ctype) else {
        drop(lvalue);
        return Err(Memory);
    };
    let ctype = unqualified(ctype);
    match lvalue.form {
        Form::Named { place, .. } => {
            drop(lvalue);
            variable_incremented(alloc, ctype, place, increment)
        }
        _ => then_unary(Form::Value, ctype, Unary::Increment(increment), lvalue),
    }
}

/// The value of `++` or `--` of the automatic object at this place.
fn variable_incremented(
    alloc: Global,
    ctype: CType,
    place: u32,
    increment: Increment,
) -> Result<Operand, Memory>
    ensures { IfOk result (λ o. o ≡ operands.value ctype (x.Primary ctype (primary.Increment place increment))) }
{
    let Ok(again) = copied(alloc, &ctype) else {
        drop(ctype);
        return Err(Memory);
    };
    let base = TExpr::Primary(again, Primary::Increment(place, increment));
    Ok(value(alloc, ctype, base))
}
