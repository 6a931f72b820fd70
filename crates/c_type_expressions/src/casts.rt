//! The row of a cast (C11 6.5.4): which values may be cast to which types,
//! and the value that a cast gives.

ghost use Rattle.std.specs.Prelude.{◌≡◌, IfOk};
ghost use Rattle.c_typing.specs.Expressions as spec;
ghost use Rattle.c_type_walk.specs.Walks.{Walks};

use crate::refusals::refused;
use c_tree::typed::{CType, Conversion, Unary};
use c_tree::{FaultKind, Pos};
use c_type_rules::{
    converted, dropping, is_bool, is_integer, is_null_constant, is_pointer, is_void, then_unary,
    unqualified, valued,
};
use c_type_walk::{Around, Found};
use c_typing::{Form, Operand};
use std::alloc::Global;
use word_ops::Memory;

/// A cast to this type; one to `void` drops the value (C11 6.5.4p2, p4, 6.3.2.2).
///
/// # Errors
///
/// `Memory` where memory is wanting.
pub(crate) fn cast_row(
    alloc: Global,
    found: &mut Found,
    around: &Around<'_>,
    place: Pos,
    ctype: CType,
    operand: Operand,
) -> Result<Option<Operand>, Memory>
    ensures { Walks (spec.cast_row place ctype operand) around.now found.old result found.new }
{
    if is_void(&ctype) {
        return Ok(Some(dropping(alloc, operand)?));
    }
    let Ok(value) = valued(alloc, operand) else {
        drop(ctype);
        return Err(Memory);
    };
    if !casts(&ctype, &value) {
        return refused(found, around, FaultKind::Mismatch, place, (ctype, value));
    }
    Ok(Some(cast_to(alloc, unqualified(ctype), value)?))
}

/// The value of a cast: a pointer that is cast to a pointer is no null pointer constant (C11 6.3.2.3p3).
fn cast_to(alloc: Global, ctype: CType, value: Operand) -> Result<Operand, Memory>
    ensures { IfOk result (λ o. o ≡ spec.cast_to ctype value) }
{
    if is_pointer(&ctype) && is_pointer(&value.ctype) {
        let conversion = Unary::Convert(Conversion::Pointer);
        then_unary(Form::Value, ctype, conversion, value)
    } else {
        converted(alloc, ctype, value)
    }
}

/// Whether a value may be cast to a type: an integer to an integer type, a pointer or a null pointer constant to a pointer
/// type, and a pointer to `_Bool`.
fn casts(ctype: &CType, value: &Operand) -> bool
    ensures { result ≡ spec.casts ctype.now value.now }
{
    (is_integer(ctype) && is_integer(&value.ctype))
        || ((is_pointer(ctype) && (is_pointer(&value.ctype) || is_null_constant(value)))
            || (is_bool(ctype) && is_pointer(&value.ctype)))
}
