//! Enumerations (C11 6.7.2.2).
//! Rows: an enumeration begins, and an enumerator is declared, from the value that was typed.

ghost use Rattle.std.specs.Prelude.{◌≡◌, ◌+◌, ◌%◌, ◌^◌};
ghost use Rattle.std.specs.Option.{option_copied, option_map};
ghost use Rattle.c_typing.specs.Declarators as spec;
ghost use Rattle.c_typing.specs.Scopes as scopes;
ghost use Rattle.c_type_walk.specs.Walks.{Walks};
ghost use Rattle.c_type_declarators.specs.Enumerations as enumerations;

use crate::constants::{LEAST_NEGATIVE, constant_row};
use c_tree::typed::{Base, CType};
use c_tree::{FaultKind, Identifier, Pos};
use c_type_rules::plain;
use c_type_walk::{Around, Found};
use c_typing::{Meaning, Operand, Tag};
use std::alloc::Global;
use word_ops::Memory;

/// The number of a new enumerated type, which its tag stands for from here on, where it has one (C11 6.7.2.3p4); the type is
/// not complete before its list ends.
///
/// # Errors
///
/// `Memory` where memory is wanting, and where no number below 2^32 is left.
pub fn enum_begun(
    alloc: Global,
    found: &mut Found,
    around: &Around<'_>,
    tag: Option<&Identifier>,
) -> Result<Option<u32>, Memory>
    ensures { Walks (enumerations.enum_begun (option_copied tag.entry)) around.now found.old result found.new }
{
    let number = found.state.enums;
    let Some(next) = number.checked_add(1) else {
        return Err(Memory);
    };
    found.state.enums = next;
    if let Some(tag) = tag {
        let stood = found.own_tag(around, &tag.text).is_some();
        found.tell_if(stood, FaultKind::Redeclared, tag.place)?;
        found.declare_tag(alloc, &tag.text, Tag::EnumTag(number, false))?;
    }
    Ok(Some(number))
}

/// The enumerated type of this number, behind its list: what its tag stands for is complete (C11 6.7.2.2p4).
///
/// # Errors
///
/// `Memory` where memory is wanting.
pub fn enum_ended(
    alloc: Global,
    found: &mut Found,
    around: &Around<'_>,
    tag: Option<&Identifier>,
    number: u32,
) -> Result<Option<CType>, Memory>
    ensures { Walks (spec.enum_ended (option_copied tag.entry) number) around.now found.old result found.new }
{
    let _around = around;
    if let Some(tag) = tag {
        found.declare_tag(alloc, &tag.text, Tag::EnumTag(number, true))?;
    }
    Ok(Some(plain(alloc, Base::Enum(number))))
}

/// An enumerator without an expression: its value is greater by 1 than that of the one before it (C11 6.7.2.2p3).
///
/// # Errors
///
/// `Memory` where memory is wanting.
pub fn plain_enumerator(
    alloc: Global,
    found: &mut Found,
    around: &Around<'_>,
    name: &Identifier,
    value: Option<u32>,
) -> Result<Option<u32>, Memory>
    ensures { Walks (spec.plain_enumerator name.now value) around.now found.old result found.new }
{
    let value = following(found, around, name.place, value)?;
    declared_enumerator(alloc, found, around, name, value)
}

/// An enumerator and its expression, unless a fault stands in that (C11 6.7.2.2p2).
///
/// # Errors
///
/// `Memory` where memory is wanting.
pub fn valued_enumerator(
    alloc: Global,
    found: &mut Found,
    around: &Around<'_>,
    name: &Identifier,
    first: Pos,
    operand: Option<Operand>,
) -> Result<Option<u32>, Memory>
    ensures { Walks (enumerations.enumerator_with name.now first operand) around.now found.old result found.new }
{
    let value = value_if_any(alloc, found, around, first, operand)?;
    declared_enumerator(alloc, found, around, name, value)
}

/// The value that the enumerator after one of this value has without an expression, as a word (C11 6.7.2.2p3).
pub fn following_number(value: Option<u32>) -> Option<u32>
    ensures { result ≡ option_map (λ n. (n + 1) % (2 ^ 32)) value }
{
    value.map(|number| number.wrapping_add(1))
}

/// Declares an enumerator of this value, unless a fault stands in that; its name differs from the others of the scope
/// (C11 6.7.2.2p3, 6.7p3).
///
/// # Errors
///
/// `Memory` where memory is wanting.
pub fn declared_enumerator(
    alloc: Global,
    found: &mut Found,
    around: &Around<'_>,
    name: &Identifier,
    value: Option<u32>,
) -> Result<Option<u32>, Memory>
    ensures { Walks (spec.enumerator_declared name.now value) around.now found.old result found.new }
{
    let stood = found.own_meaning(around, &name.text).is_some();
    found.tell_if(stood, FaultKind::Redeclared, name.place)?;
    found.declare(alloc, &name.text, enumerator_meaning(value))?;
    Ok(value)
}

/// What the name of an enumerator of this value stands for.
fn enumerator_meaning(value: Option<u32>) -> Meaning
    ensures { result ≡ spec.enumerator_meaning value }
{
    match value {
        Some(number) => Meaning::EnumeratorOf(number),
        None => Meaning::Unknown,
    }
}

/// The value without an expression, which is an `int` (C11 6.7.2.2p2, p3).
fn following(
    found: &mut Found,
    around: &Around<'_>,
    at: Pos,
    value: Option<u32>,
) -> Result<Option<u32>, Memory>
    ensures { Walks (spec.following at value) around.now found.old result found.new }
{
    let Some(number) = value else {
        return Ok(None);
    };
    if number == LEAST_NEGATIVE {
        return found.tell(around, FaultKind::NotConstant, at);
    }
    Ok(Some(number))
}

/// The value of an expression, where no fault stands in it.
fn value_if_any(
    alloc: Global,
    found: &mut Found,
    around: &Around<'_>,
    first: Pos,
    operand: Option<Operand>,
) -> Result<Option<u32>, Memory>
    ensures { Walks (scopes.asked operand (spec.enumerator_value first)) around.now found.old result found.new }
{
    match operand {
        Some(operand) => enumerator_value(alloc, found, around, first, operand),
        None => Ok(None),
    }
}

/// The value of an integer constant expression that an `int` holds (C11 6.7.2.2p2).
fn enumerator_value(
    alloc: Global,
    found: &mut Found,
    around: &Around<'_>,
    first: Pos,
    operand: Operand,
) -> Result<Option<u32>, Memory>
    ensures { Walks (spec.enumerator_value first operand) around.now found.old result found.new }
{
    let Some((number, signed)) = constant_row(alloc, found, around, first, operand)? else {
        return Ok(None);
    };
    if !signed && number >= LEAST_NEGATIVE {
        return found.tell(around, FaultKind::NotConstant, first);
    }
    Ok(Some(number))
}
