//! The rows of `.` and `->` (C11 6.5.2.3): a member of a structure, as an lvalue or
//! as a value.

ghost use Rattle.std.specs.Prelude.{◌≡◌, IfOk};
ghost use Rattle.c_tree.specs.declared.typed.operator.Unary.TheVariants as unary;
ghost use Rattle.c_typing.specs.declared.operand.Form.TheVariants as form;
ghost use Rattle.c_typing.specs.Types as types;
ghost use Rattle.c_typing.specs.Operands as operands;
ghost use Rattle.c_typing.specs.Expressions as spec;
ghost use Rattle.c_type_walk.specs.Walks.{Walks};

use crate::refusals::refused;
use c_layout::{MemberLayout, member};
use c_tree::typed::{Base, CType, Unary};
use c_tree::{FaultKind, Identifier, Pos};
use c_type_rules::{
    constant_if, copied, in_word, is_constant, is_lvalue, is_struct, target, then_unary, valued,
};
use c_type_walk::{Around, Found};
use c_typing::{Form, Operand};
use std::alloc::Global;
use word_ops::Memory;

/// `.`: the member of an lvalue is one, and that of another value is read (C11 6.5.2.3p1, p3).
///
/// # Errors
///
/// `Memory` where memory is wanting.
pub fn member_row(
    alloc: Global,
    found: &mut Found,
    around: &Around<'_>,
    name: &Identifier,
    place: Pos,
    operand: Operand,
) -> Result<Option<Operand>, Memory>
    ensures { Walks (spec.member_row name.now place operand) around.now found.old result found.new }
{
    let stays_lvalue = is_lvalue(&operand);
    let Ok(ctype) = copied(alloc, &operand.ctype) else {
        drop(operand);
        return Err(Memory);
    };
    let member = member_of_type(alloc, found, around, name, place, &ctype, operand);
    drop(ctype);
    let Some(member) = member? else {
        return Ok(None);
    };
    if stays_lvalue {
        Ok(Some(member))
    } else {
        Ok(Some(valued(alloc, member)?))
    }
}

/// `->`: a member of the structure to which a pointer leads (C11 6.5.2.3p2, p4).
///
/// # Errors
///
/// `Memory` where memory is wanting.
pub fn arrow_row(
    alloc: Global,
    found: &mut Found,
    around: &Around<'_>,
    name: &Identifier,
    place: Pos,
    operand: Operand,
) -> Result<Option<Operand>, Memory>
    ensures { Walks (spec.arrow_row name.now place operand) around.now found.old result found.new }
{
    let value = valued(alloc, operand)?;
    let Ok(pointer) = copied(alloc, &value.ctype) else {
        drop(value);
        return Err(Memory);
    };
    let Some(ctype) = target(pointer) else {
        return refused(found, around, FaultKind::Mismatch, place, value);
    };
    let member = member_of_type(alloc, found, around, name, place, &ctype, value);
    drop(ctype);
    member
}

/// A member of a structure of this type at the operand.
fn member_of_type(
    alloc: Global,
    found: &mut Found,
    around: &Around<'_>,
    name: &Identifier,
    place: Pos,
    ctype: &CType,
    operand: Operand,
) -> Result<Option<Operand>, Memory>
    ensures { Walks (spec.member_of_type name.now place ctype.now operand) around.now found.old result found.new }
{
    if !is_struct(ctype) {
        return refused(found, around, FaultKind::Mismatch, place, operand);
    }
    member_of_base(
        alloc, found, around, name, place, ctype, operand, ctype.base,
    )
}

/// The same of a structure type, by its base.
fn member_of_base(
    alloc: Global,
    found: &mut Found,
    around: &Around<'_>,
    name: &Identifier,
    place: Pos,
    ctype: &CType,
    operand: Operand,
    base: Base,
) -> Result<Option<Operand>, Memory>
    ensures { Walks (spec.member_of_base name.now place ctype.now operand base) around.now found.old result found.new }
{
    let Base::Struct(tag) = base else {
        return refused(found, around, FaultKind::Mismatch, place, operand);
    };
    let Some(layout) = member(tag, &name.text, &found.state.structs) else {
        return refused(found, around, FaultKind::Undeclared, name.place, operand);
    };
    Ok(Some(member_at(alloc, is_constant(ctype), layout, operand)?))
}

/// The member that lies here in a structure, `const` where the structure is.
fn member_at(
    alloc: Global,
    constant: bool,
    layout: &MemberLayout,
    structure: Operand,
) -> Result<Operand, Memory>
    ensures { IfOk result (λ o. o ≡ operands.then_unary form.Place (types.constant_if constant layout.now.ctype) (unary.Member (types.in_word layout.now.offset)) structure) }
{
    let Ok(ctype) = copied(alloc, &layout.ctype) else {
        drop(structure);
        return Err(Memory);
    };
    let step = Unary::Member(in_word(layout.offset));
    then_unary(Form::Place, constant_if(constant, ctype), step, structure)
}
