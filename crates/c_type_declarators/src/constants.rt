//! Integer constant expressions as sizes (C11 6.6p6, 6.7.6.2p1).
//! Rows: told what an expression is, they fold it.

ghost use Rattle.std.specs.Prelude.{◌≡◌};
ghost use Rattle.c_typing.specs.Declarators as spec;
ghost use Rattle.c_typing.specs.Operands as operands;
ghost use Rattle.c_type_walk.specs.Walks.{Walks};

use c_tree::{FaultKind, Pos};
use c_type_rules::{constant_in, is_integer, is_signed, valued};
use c_type_walk::{Around, Found};
use c_typing::Operand;
use std::alloc::Global;
use word_ops::Memory;

/// The least word that is a negative number in a signed type.
pub(crate) const LEAST_NEGATIVE: u32 = 1 << 31;

/// The value of an integer constant expression as a word, and whether its type is signed; else a fault at its first
/// token (C11 6.6p6).
///
/// # Errors
///
/// `Memory` where memory is wanting.
pub fn constant_row(
    alloc: Global,
    found: &mut Found,
    around: &Around<'_>,
    first: Pos,
    operand: Operand,
) -> Result<Option<(u32, bool)>, Memory>
    ensures { Walks (spec.constant_row first operand) around.now found.old result found.new }
{
    match signed_value(&valued(alloc, operand)?) {
        Some(value) => Ok(Some(value)),
        None => found.tell(around, FaultKind::NotConstant, first),
    }
}

/// The value of an operand that is an integer constant expression, and whether its type is signed.
fn signed_value(operand: &Operand) -> Option<(u32, bool)>
    ensures { result ≡ spec.signed_value operand.now (operands.constant_in operand.now) }
{
    let value = constant_in(operand)?;
    if is_integer(&operand.ctype) {
        Some((value, is_signed(operand.ctype.base)))
    } else {
        None
    }
}

/// A number of elements (C11 6.7.6.2p1): an integer constant expression that is greater than zero.
///
/// # Errors
///
/// `Memory` where memory is wanting.
pub fn count_row(
    alloc: Global,
    found: &mut Found,
    around: &Around<'_>,
    bracket: Pos,
    first: Pos,
    operand: Operand,
) -> Result<Option<u64>, Memory>
    ensures { Walks (spec.count_row bracket first operand) around.now found.old result found.new }
{
    let Some((number, signed)) = constant_row(alloc, found, around, first, operand)? else {
        return Ok(None);
    };
    if (signed && number >= LEAST_NEGATIVE) || number == 0 {
        return found.tell(around, FaultKind::BadSize, bracket);
    }
    Ok(Some(u64::from(number)))
}
