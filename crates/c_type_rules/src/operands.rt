//! Operands: how they are made and changed, which are lvalues, and the tree that an
//! operand comes to.

ghost use Rattle.std.specs.Prelude.{◌≡◌, IfOk};
ghost use Rattle.c_typing.specs.Operands as spec;
ghost use Rattle.c_tree.specs.declared.typed.expression.TExpr.TheVariants as x;

use crate::copies::copied;
use c_tree::typed::{CType, Primary, Step, TExpr, Unary};
use c_typing::{Form, Operand};
use std::alloc::Global;
use word_ops::{Boxed, Items, Memory};

/// An operand of this form and type, with nothing done after what it begins with. Takes no memory.
pub fn operand(alloc: Global, form: Form, ctype: CType, base: TExpr) -> Operand
    ensures { result ≡ spec.operand form ctype base }
{
    Operand {
        ctype,
        form,
        base,
        steps: Items::new(alloc),
    }
}

/// A value of this type. Takes no memory.
pub fn value(alloc: Global, ctype: CType, base: TExpr) -> Operand
    ensures { result ≡ spec.value ctype base }
{
    operand(alloc, Form::Value, ctype, base)
}

/// The value of this type that has no operands.
///
/// # Errors
///
/// `Memory` where memory is wanting.
pub fn primary(alloc: Global, ctype: CType, primary: Primary) -> Result<Operand, Memory>
    ensures { IfOk result (λ r. r ≡ spec.value ctype (x.Primary ctype primary)) }
{
    let Ok(again) = copied(alloc, &ctype) else {
        drop(ctype);
        return Err(Memory);
    };
    Ok(value(alloc, ctype, TExpr::Primary(again, primary)))
}

/// A number of this type.
///
/// # Errors
///
/// `Memory` where memory is wanting.
pub fn number(alloc: Global, ctype: CType, number: u32) -> Result<Operand, Memory>
    ensures { IfOk result (λ r. r ≡ spec.number ctype number) }
{
    primary(alloc, ctype, Primary::Number(number))
}

/// The null pointer of this type (C11 6.3.2.3p3).
///
/// # Errors
///
/// `Memory` where memory is wanting.
pub fn null(alloc: Global, ctype: CType) -> Result<Operand, Memory>
    ensures { IfOk result (λ r. r ≡ spec.null ctype) }
{
    primary(alloc, ctype, Primary::Null)
}

/// One more step, which gives an operand of this form and type.
///
/// # Errors
///
/// `Memory` where memory is wanting.
pub fn then_step(form: Form, ctype: CType, step: Step, operand: Operand) -> Result<Operand, Memory>
    ensures { IfOk result (λ r. r ≡ spec.then_step form ctype step operand) }
{
    let Operand {
        ctype: before,
        base,
        mut steps,
        ..
    } = operand;
    drop(before);
    if steps.push(step).is_err() {
        drop((ctype, base, steps));
        return Err(Memory);
    }
    Ok(Operand {
        ctype,
        form,
        base,
        steps,
    })
}

/// One more step that takes no other operand.
///
/// # Errors
///
/// `Memory` where memory is wanting.
pub fn then_unary(
    form: Form,
    ctype: CType,
    unary: Unary,
    operand: Operand,
) -> Result<Operand, Memory>
    ensures { IfOk result (λ r. r ≡ spec.then_unary form ctype unary operand) }
{
    then_step(form, ctype, Step::Unary(unary), operand)
}

/// An operand of another type and form. Takes no memory.
pub fn as_form(form: Form, ctype: CType, operand: Operand) -> Operand
    ensures { result ≡ spec.as_form form ctype operand }
{
    Operand {
        ctype,
        form,
        base: operand.base,
        steps: operand.steps,
    }
}

/// Whether an operand is an lvalue (C11 6.3.2.1p1).
pub fn is_lvalue(operand: &Operand) -> bool
    ensures { result ≡ spec.is_lvalue operand.now }
{
    match operand.form {
        Form::Value => false,
        Form::Place => true,
        Form::Named { .. } => true,
    }
}

/// Whether an operand is the name of an object that is `register` (C11 6.7.1p6).
pub fn in_register(operand: &Operand) -> bool
    ensures { result ≡ spec.in_register operand.now }
{
    match operand.form {
        Form::Value => false,
        Form::Place => false,
        Form::Named { in_register, .. } => in_register,
    }
}

/// The number of the automatic object that an operand names, or `None` exactly where it names none.
pub fn numbered(operand: &Operand) -> Option<u32>
    ensures { result ≡ spec.numbered operand.now }
{
    match operand.form {
        Form::Value => None,
        Form::Place => None,
        Form::Named { number, .. } => Some(number),
    }
}

/// The tree of an operand: what it begins with, and the steps in one list.
///
/// # Errors
///
/// `Memory` where memory is wanting.
pub fn tree_of(alloc: Global, operand: Operand) -> Result<TExpr, Memory>
    ensures { IfOk result (λ tree. tree ≡ spec.tree_of operand) }
{
    let Operand {
        ctype,
        base,
        steps,
        ..
    } = operand;
    if steps.is_empty() {
        drop(steps);
        return Ok(retyped(ctype, base));
    }
    let Ok(base) = Boxed::new(alloc, base) else {
        drop((ctype, steps));
        return Err(Memory);
    };
    Ok(TExpr::Applied(ctype, base, steps))
}

/// What has no operands, with the type of the whole.
fn retyped(ctype: CType, tree: TExpr) -> TExpr
    ensures { result ≡ spec.retyped ctype tree }
{
    match tree {
        TExpr::Primary(_, primary) => TExpr::Primary(ctype, primary),
        other => other,
    }
}
