//! What is done with the value of an operand (C11 6.3): it is read, dropped, or converted
//! to another type.

ghost use Rattle.std.specs.Prelude.{◌≡◌, [], ◌∷◌, IfOk};
ghost use Rattle.c_tree.specs.declared.typed.expression.TExpr.TheVariants as x;
ghost use Rattle.c_tree.specs.declared.typed.expression.Step.TheVariants as step;
ghost use Rattle.c_tree.specs.declared.typed.operator.Unary.TheVariants as unary;
ghost use Rattle.c_typing.specs.Types as types;
ghost use Rattle.c_typing.specs.Operands as spec;
ghost use Rattle.c_type_rules.specs.Values.{read_if_lvalue};

use crate::compatibility::compatible;
use crate::constants::is_null_constant;
use crate::conversions::{conversion_to, scalar_of};
use crate::copies::copied;
use crate::kinds::{is_pointer, is_void};
use crate::making::{plain, pointer_to};
use crate::operands::{as_form, is_lvalue, null, primary, then_unary, value};
use crate::qualifiers::unqualified;
use crate::shapes::{TypeShape, shape};
use c_tree::typed::{Base, CType, Primary, Scalar, Step, TExpr, Unary};
use c_typing::{Form, Operand};
use std::alloc::Global;
use word_ops::{Boxed, Items, Memory};

/// An operand as a value: an array is a pointer to its first element, and an lvalue is read (C11 6.3.2.1p2, p3).
///
/// # Errors
///
/// `Memory` where memory is wanting.
pub fn valued(alloc: Global, operand: Operand) -> Result<Operand, Memory>
    ensures { IfOk result (λ r. r ≡ spec.valued operand) }
{
    match shape(&operand.ctype) {
        TypeShape::ArrayOf(_, element) => {
            let pointer = pointer_to(false, element.copied(alloc)?)?;
            Ok(as_form(Form::Value, pointer, operand))
        }
        _ => read_lvalue(alloc, operand),
    }
}

fn read_lvalue(alloc: Global, operand: Operand) -> Result<Operand, Memory>
    ensures { IfOk result (λ r. r ≡ read_if_lvalue operand) }
{
    if !is_lvalue(&operand) {
        return Ok(operand);
    }
    let Ok(ctype) = copied(alloc, &operand.ctype) else {
        drop(operand);
        return Err(Memory);
    };
    let ctype = unqualified(ctype);
    match scalar_of(&operand.ctype) {
        Some(scalar) => read(alloc, ctype, scalar, operand),
        None => Ok(as_form(Form::Value, ctype, operand)),
    }
}

/// Reads the value of an object of scalar type (C11 6.3.2.1p2).
fn read(alloc: Global, ctype: CType, scalar: Scalar, operand: Operand) -> Result<Operand, Memory>
    ensures { IfOk result (λ r. r ≡ spec.read_by operand.form ctype scalar operand) }
{
    match operand.form {
        Form::Value => {
            drop(ctype);
            Ok(operand)
        }
        Form::Place => then_unary(Form::Value, ctype, Unary::Load(scalar), operand),
        Form::Named { place, .. } => {
            drop(operand);
            primary(alloc, ctype, Primary::Variable(scalar, place))
        }
    }
}

/// Drops the value of an operand (C11 6.3.2.2, 6.8.3p2).
///
/// # Errors
///
/// `Memory` where memory is wanting.
pub fn dropping(alloc: Global, operand: Operand) -> Result<Operand, Memory>
    ensures { IfOk result (λ r. r ≡ spec.dropping operand) }
{
    if is_void(&operand.ctype) {
        return Ok(operand);
    }
    let operand = valued(alloc, operand)?;
    let void = plain(alloc, Base::Void);
    if operand.steps.is_empty() {
        Ok(value(alloc, void, dropped(alloc, operand.base)?))
    } else {
        then_unary(Form::Value, void, Unary::Drop, operand)
    }
}

/// A tree whose value is dropped: a call whose value is dropped has a form of its own, and the drop of a comma reaches its
/// last operand (C11 6.3.2.2, 6.5.17).
#[cycle(drops)]
fn dropped(alloc: Global, tree: TExpr) -> Result<TExpr, Memory>
    ensures { IfOk result (λ r. r ≡ spec.dropped tree) }
{
    match tree {
        TExpr::Call(_, function, arguments) => Ok(TExpr::DroppedCall(
            plain(alloc, Base::Void),
            function,
            arguments,
        )),
        TExpr::Comma(_, before, last) => comma_dropped(alloc, last, before),
        other => then_drop(alloc, other),
    }
}

/// A comma whose value is dropped.
#[cycle(drops)]
fn comma_dropped(alloc: Global, last: Boxed<TExpr>, before: Items<TExpr>) -> Result<TExpr, Memory>
    ensures { IfOk result (λ r. r ≡ x.Comma types.void before (spec.dropped last)) }
{
    let Ok(last) = dropped(alloc, last.into_inner()) else {
        drop(before);
        return Err(Memory);
    };
    let Ok(last) = Boxed::new(alloc, last) else {
        drop(before);
        return Err(Memory);
    };
    Ok(TExpr::Comma(plain(alloc, Base::Void), before, last))
}

/// A tree, and then the drop of its value.
fn then_drop(alloc: Global, tree: TExpr) -> Result<TExpr, Memory>
    ensures { IfOk result (λ r. r ≡ x.Applied types.void tree (step.Unary unary.Drop ∷ [])) }
{
    let Ok(steps) = one_step(alloc, Step::Unary(Unary::Drop)) else {
        drop(tree);
        return Err(Memory);
    };
    let Ok(tree) = Boxed::new(alloc, tree) else {
        drop(steps);
        return Err(Memory);
    };
    Ok(TExpr::Applied(plain(alloc, Base::Void), tree, steps))
}

fn one_step(alloc: Global, step: Step) -> Result<Items<Step>, Memory>
    ensures { IfOk result (λ steps. steps ≡ step ∷ []) }
{
    let mut steps = Items::new(alloc);
    if steps.push(step).is_err() {
        drop(steps);
        return Err(Memory);
    }
    Ok(steps)
}

/// A value of scalar type as one of another: itself where it has that type already (C11 6.3).
///
/// # Errors
///
/// `Memory` where memory is wanting.
pub fn converted(alloc: Global, ctype: CType, operand: Operand) -> Result<Operand, Memory>
    ensures { IfOk result (λ r. r ≡ spec.converted ctype operand) }
{
    if compatible(&ctype, &operand.ctype) {
        Ok(as_form(Form::Value, ctype, operand))
    } else if is_pointer(&ctype) && is_null_constant(&operand) {
        drop(operand);
        null(alloc, ctype)
    } else {
        let conversion = conversion_to(&ctype);
        then_unary(Form::Value, ctype, Unary::Convert(conversion), operand)
    }
}
