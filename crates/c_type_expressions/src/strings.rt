//! The row of a string literal (C11 6.4.5p6): the array that it is, and its object
//! among the static ones of the unit.

ghost use Rattle.std.specs.Prelude.{◌≡◌, ◌<◌, ◌^◌, ◌+◌, IfOk, length};
ghost use Rattle.c_tree.specs.declared.typed.expression.TExpr.TheVariants as x;
ghost use Rattle.c_tree.specs.declared.typed.operator.Primary.TheVariants as primary;
ghost use Rattle.c_typing.specs.declared.operand.Form.TheVariants as form;
ghost use Rattle.c_typing.specs.Operands as operands;
ghost use Rattle.c_typing.specs.Expressions as spec;
ghost use Rattle.c_type_walk.specs.Walks.{Walks};

use crate::refusals::refused;
use crate::sizes::LARGEST;
use crate::trees::with_item;
use c_tree::typed::{Base, CType, Derived, Object, Primary, StaticObject, StaticPart, TExpr};
use c_tree::{FaultKind, Pos};
use c_type_rules::{copied, derived_from, operand, plain};
use c_type_walk::{Around, Found};
use c_typing::{Form, Operand};
use std::alloc::Global;
use word_ops::{Items, Memory, Text};

/// A string literal, by the bytes of its elements without the zero byte at its end: an array of `char`, which stands among
/// the static objects of the unit (C11 6.4.5p6).
///
/// # Errors
///
/// `Memory` where memory is wanting, and where no number below 2^32 is left for the object.
pub fn string_row(
    alloc: Global,
    found: &mut Found,
    around: &Around<'_>,
    place: Pos,
    bytes: Text,
) -> Result<Option<Operand>, Memory>
    ensures { Walks (spec.string_row place bytes) around.now found.old result found.new }
{
    if bytes.as_slice().len() as u64 >= LARGEST {
        return refused(found, around, FaultKind::TooLarge, place, bytes);
    }
    let Ok(operand) = string_operand(alloc, found, around, &bytes) else {
        drop(bytes);
        return Err(Memory);
    };
    let Ok(object) = string_object(alloc, bytes) else {
        drop(operand);
        return Err(Memory);
    };
    if found.state.statics.push(object).is_err() {
        drop(operand);
        return Err(Memory);
    }
    Ok(Some(operand))
}

/// The lvalue of a string literal, of which the object is the next static one.
fn string_operand(
    alloc: Global,
    found: &Found,
    around: &Around<'_>,
    bytes: &Text,
) -> Result<Operand, Memory>
    requires { length bytes.now < 2 ^ 24 }
    ensures { IfOk result (λ o. o ≡ operands.operand form.Place (spec.string_type bytes.now) (x.Primary (spec.string_type bytes.now) (primary.Static (length around.now.objects.now + length found.now.state.statics)))) }
{
    let number = next_static(found, around)?;
    let ctype = string_type(alloc, bytes)?;
    let Ok(again) = copied(alloc, &ctype) else {
        drop(ctype);
        return Err(Memory);
    };
    let base = TExpr::Primary(again, Primary::Static(number));
    Ok(operand(alloc, Form::Place, ctype, base))
}

/// The number of the next static object: those of the file stand first, and string literals and the static objects of
/// functions behind them.
fn next_static(found: &Found, around: &Around<'_>) -> Result<u32, Memory>
    ensures { IfOk result (λ n. n ≡ length around.now.objects.now + length found.now.state.statics) }
{
    let Some(number) = around.objects.len().checked_add(found.state.statics.len()) else {
        return Err(Memory);
    };
    u32::try_from(number).map_err(|_| Memory)
}

/// An array of `char` with an element more than the string has bytes.
fn string_type(alloc: Global, bytes: &Text) -> Result<CType, Memory>
    requires { length bytes.now < 2 ^ 24 }
    ensures { IfOk result (λ t. t ≡ spec.string_type bytes.now) }
{
    let count = bytes.as_slice().len() as u64 + 1;
    derived_from(plain(alloc, Base::Char), Derived::Array(Some(count)))
}

/// The object of a string literal.
fn string_object(alloc: Global, bytes: Text) -> Result<StaticObject, Memory>
    requires { length bytes < 2 ^ 24 }
    ensures { IfOk result (λ o. o ≡ spec.string_object bytes) }
{
    let Ok(ctype) = string_type(alloc, &bytes) else {
        drop(bytes);
        return Err(Memory);
    };
    let size = bytes.as_slice().len() as u32 + 1;
    let Ok(parts) = bytes_at_start(alloc, bytes) else {
        drop(ctype);
        return Err(Memory);
    };
    let object = Object {
        ctype,
        scalar: None,
        size,
        alignment: 1,
        constant: true,
        addressed: true,
    };
    Ok(StaticObject { object, parts })
}

/// The bytes with which an object begins, where there are any.
fn bytes_at_start(alloc: Global, bytes: Text) -> Result<Items<StaticPart>, Memory>
    ensures { IfOk result (λ parts. parts ≡ spec.bytes_at 0 bytes) }
{
    if bytes.as_slice().is_empty() {
        drop(bytes);
        Ok(Items::new(alloc))
    } else {
        with_item(Items::new(alloc), StaticPart::Bytes(0, bytes))
    }
}
