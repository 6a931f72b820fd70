//! The rows of `*` and `&` (C11 6.5.3.2): the lvalue to which an address leads, and the
//! address of an lvalue.

ghost use Rattle.std.specs.Prelude.{◌≡◌, false, IfOk, OnOk};
ghost use Rattle.c_typing.specs.declared.operand.Form.TheVariants as form;
ghost use Rattle.c_typing.specs.Types as types;
ghost use Rattle.c_typing.specs.Operands as operands;
ghost use Rattle.c_typing.specs.Expressions as spec;
ghost use Rattle.c_type_walk.specs.Walks.{Walks};

use crate::refusals::refused;
use c_layout::size;
use c_tree::typed::CType;
use c_tree::{FaultKind, Pos};
use c_type_rules::{as_form, copied, in_register, is_lvalue, numbered, pointer_to, target, valued};
use c_type_walk::{Around, Found};
use c_typing::{Form, Operand};
use std::alloc::Global;
use word_ops::Memory;

/// `*`: the lvalue to which a pointer leads (C11 6.5.3.2p2, p4).
///
/// # Errors
///
/// `Memory` where memory is wanting.
pub(crate) fn indirection_row(
    alloc: Global,
    found: &mut Found,
    around: &Around<'_>,
    place: Pos,
    operand: Operand,
) -> Result<Option<Operand>, Memory>
    ensures { Walks (spec.indirection_row place operand) around.now found.old result found.new }
{
    let value = valued(alloc, operand)?;
    led_to(alloc, found, around, place, value)
}

/// The lvalue to which the value of a pointer leads.
pub(crate) fn led_to(
    alloc: Global,
    found: &mut Found,
    around: &Around<'_>,
    place: Pos,
    address: Operand,
) -> Result<Option<Operand>, Memory>
    ensures { Walks (spec.reached place address (operands.target_of address.ctype)) around.now found.old result found.new }
{
    let Ok(pointer) = copied(alloc, &address.ctype) else {
        drop(address);
        return Err(Memory);
    };
    reached(found, around, place, address, target(pointer))
}

/// The lvalue of a type to which an address leads, where there is such a type and it is complete.
fn reached(
    found: &mut Found,
    around: &Around<'_>,
    place: Pos,
    address: Operand,
    target: Option<CType>,
) -> Result<Option<Operand>, Memory>
    ensures { Walks (spec.reached place address target) around.now found.old result found.new }
{
    let Some(ctype) = target else {
        return refused(found, around, FaultKind::Mismatch, place, address);
    };
    if size(&ctype, &found.state.structs).is_none() {
        return refused(
            found,
            around,
            FaultKind::Incomplete,
            place,
            (address, ctype),
        );
    }
    Ok(Some(as_form(Form::Place, ctype, address)))
}

/// `&`: the address of an lvalue that is not `register` (C11 6.5.3.2p1, p3).
///
/// # Errors
///
/// `Memory` where memory is wanting.
pub(crate) fn address_row(
    alloc: Global,
    found: &mut Found,
    around: &Around<'_>,
    place: Pos,
    operand: Operand,
) -> Result<Option<Operand>, Memory>
    ensures { Walks (spec.address_row place operand) around.now found.old result found.new }
{
    if !is_lvalue(&operand) || in_register(&operand) {
        return refused(found, around, FaultKind::NotLvalue, place, operand);
    }
    if keep_addressed(found, numbered(&operand)).is_err() {
        drop(operand);
        return Err(Memory);
    }
    Ok(Some(address_of(alloc, operand)?))
}

/// The address of an object, as a value.
fn address_of(alloc: Global, object: Operand) -> Result<Operand, Memory>
    ensures { IfOk result (λ o. o ≡ operands.as_form form.Value (types.pointer_to false object.ctype) object) }
{
    let Ok(pointer) = pointer_to_type(alloc, &object.ctype) else {
        drop(object);
        return Err(Memory);
    };
    Ok(as_form(Form::Value, pointer, object))
}

/// The type of pointers to objects of this type.
fn pointer_to_type(alloc: Global, ctype: &CType) -> Result<CType, Memory>
    ensures { IfOk result (λ t. t ≡ types.pointer_to false ctype.now) }
{
    pointer_to(false, copied(alloc, ctype)?)
}

/// Keeps that the address of the automatic object of this number is taken.
fn keep_addressed(found: &mut Found, number: Option<u32>) -> Result<(), Memory>
    ensures faults { found.new.faults ≡ found.old.faults }
    ensures state { OnOk result (found.new.state ≡ spec.address_taken number found.old.state) }
{
    if let Some(number) = number {
        found.state.addressed.push(number)?;
    }
    Ok(())
}
