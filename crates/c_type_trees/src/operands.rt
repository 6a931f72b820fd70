//! The rows of operators where a fault may stand in an operand: nothing is asked of that.
//! No walk: each hands what the walks of its operands gave to a row of c_type_expressions.

ghost use Rattle.std.specs.Prelude.{◌≡◌, Some, IfOk};
ghost use Rattle.std.specs.Option.{option_map};
ghost use Rattle.c_tree.specs.declared.refusal.FaultKind.TheVariants as kind;
ghost use Rattle.c_tree.specs.declared.typed.operator.Given.TheVariants as given;
ghost use Rattle.c_typing.specs.Conversions as conversions;
ghost use Rattle.c_typing.specs.Expressions as rows;
ghost use Rattle.c_typing.specs.Operands as op;
ghost use Rattle.c_typing.specs.Parts as nodes;
ghost use Rattle.c_typing.specs.OfTrees as spec;
ghost use Rattle.c_typing.specs.Scopes as scopes;
ghost use Rattle.c_typing.specs.Types as types;
ghost use Rattle.c_type_walk.specs.Walks.{Walks};
ghost use Rattle.c_type_expressions.specs.Prefixes.{prefixing};
ghost use Rattle.c_type_trees.specs.Calls as calls;

use crate::held::held;
use crate::names::{bytes_of_all, first_literal};
use c_tree::typed::{Base, CType, Given};
use c_tree::{FaultKind, Identifier, IntKind, Literal, Mark, Pos, Punct};
use c_type_expressions::{
    Argument, Prefixing, arrow_row, binary_row, call_row, increment_row, index_row, member_row,
    name_row, prefix_row, size_row, string_row, truth_row,
};
use c_type_rules::{base_of_constant, number, plain};
use c_type_walk::{Around, Found};
use c_typing::Operand;
use std::alloc::Global;
use word_ops::{Boxed, Memory};

/// An integer constant (C11 6.4.4.1).
#[inline(never)]
pub(crate) fn integer(
    alloc: Global,
    value: u32,
    kind: IntKind,
) -> Result<Option<Boxed<Operand>>, Memory>
    ensures { IfOk result (λ o. o ≡ Some (op.number (types.plain (conversions.base_of_constant kind)) value)) }
{
    let constant = number(alloc, plain(alloc, base_of_constant(kind)), value)?;
    held(alloc, Some(constant))
}

/// A character constant, which is an `int` (C11 6.4.4.4p10).
#[inline(never)]
pub(crate) fn character(alloc: Global, value: u8) -> Result<Option<Boxed<Operand>>, Memory>
    ensures { IfOk result (λ o. o ≡ Some (op.number types.int value)) }
{
    let constant = number(alloc, plain(alloc, Base::Int), u32::from(value))?;
    held(alloc, Some(constant))
}

/// What a name stands for (C11 6.5.1p2).
#[inline(never)]
pub(crate) fn named(
    alloc: Global,
    found: &mut Found,
    around: &Around<'_>,
    name: &Identifier,
) -> Result<Option<Boxed<Operand>>, Memory>
    ensures { Walks (rows.name_row name.now) around.now found.old result found.new }
{
    let value = name_row(alloc, found, around, name)?;
    held(alloc, value)
}

/// String literals side by side are one (C11 6.4.5p5).
#[inline(never)]
pub(crate) fn strings(
    alloc: Global,
    found: &mut Found,
    around: &Around<'_>,
    all: &[Literal],
) -> Result<Option<Boxed<Operand>>, Memory>
    ensures { Walks (calls.strings_row all.now) around.now found.old result found.new }
{
    let bytes = bytes_of_all(alloc, all)?;
    let value = string_row(alloc, found, around, first_literal(all), bytes)?;
    held(alloc, value)
}

/// A binary operator and its operands (C11 6.5.5 to 6.5.12).
#[inline(never)]
pub(crate) fn binary_if_both(
    alloc: Global,
    found: &mut Found,
    around: &Around<'_>,
    mark: Mark,
    left: Option<Boxed<Operand>>,
    right: Option<Boxed<Operand>>,
) -> Result<Option<Boxed<Operand>>, Memory>
    ensures { Walks (scopes.both_asked left right (rows.binary_row mark)) around.now found.old result found.new }
{
    let left = some_or_drop!(left, right);
    let right = some_or_drop!(right, left);
    let (left, right) = (left.into_inner(), right.into_inner());
    let value = binary_row(alloc, found, around, mark, left, right)?;
    held(alloc, value)
}

/// A prefix and the operand behind it (C11 6.5.3, 6.5.4).
#[inline(never)]
pub(crate) fn prefix_if_both(
    alloc: Global,
    found: &mut Found,
    around: &Around<'_>,
    prefix: Option<Prefixing>,
    operand: Option<Boxed<Operand>>,
) -> Result<Option<Boxed<Operand>>, Memory>
    ensures { Walks (scopes.both_asked (option_map prefixing prefix) operand spec.prefix_row) around.now found.old result found.new }
{
    let prefix = some_or_drop!(prefix, operand);
    let operand = some_or_drop!(operand, prefix);
    let value = prefix_row(alloc, found, around, prefix, operand.into_inner())?;
    held(alloc, value)
}

/// `a[i]` (C11 6.5.2.1).
#[inline(never)]
pub(crate) fn index_if_both(
    alloc: Global,
    found: &mut Found,
    around: &Around<'_>,
    place: Pos,
    operand: Option<Boxed<Operand>>,
    index: Option<Boxed<Operand>>,
) -> Result<Option<Boxed<Operand>>, Memory>
    ensures { Walks (scopes.both_asked operand index (rows.index_row place)) around.now found.old result found.new }
{
    let operand = some_or_drop!(operand, index);
    let index = some_or_drop!(index, operand);
    let (operand, index) = (operand.into_inner(), index.into_inner());
    let value = index_row(alloc, found, around, place, operand, index)?;
    held(alloc, value)
}

/// A call of what is not the name of a function: there are no pointers to functions (C11 6.5.2.2p1).
#[inline(never)]
pub(crate) fn bad_call_if_any(
    found: &mut Found,
    around: &Around<'_>,
    place: Pos,
    operand: Option<Boxed<Operand>>,
) -> Result<Option<Boxed<Operand>>, Memory>
    ensures { Walks (scopes.asked operand (λ o. scopes.tell kind.BadCall place)) around.now found.old result found.new }
{
    let Some(operand) = operand else {
        return Ok(None);
    };
    drop(operand);
    found.tell(around, FaultKind::BadCall, place)
}

/// `.` and a name (C11 6.5.2.3).
#[inline(never)]
pub(crate) fn member_if_any(
    alloc: Global,
    found: &mut Found,
    around: &Around<'_>,
    name: &Identifier,
    place: Pos,
    operand: Option<Boxed<Operand>>,
) -> Result<Option<Boxed<Operand>>, Memory>
    ensures { Walks (scopes.asked operand (rows.member_row name.now place)) around.now found.old result found.new }
{
    let Some(operand) = operand else {
        return Ok(None);
    };
    let value = member_row(alloc, found, around, name, place, operand.into_inner())?;
    held(alloc, value)
}

/// `->` and a name (C11 6.5.2.3).
#[inline(never)]
pub(crate) fn arrow_if_any(
    alloc: Global,
    found: &mut Found,
    around: &Around<'_>,
    name: &Identifier,
    place: Pos,
    operand: Option<Boxed<Operand>>,
) -> Result<Option<Boxed<Operand>>, Memory>
    ensures { Walks (scopes.asked operand (rows.arrow_row name.now place)) around.now found.old result found.new }
{
    let Some(operand) = operand else {
        return Ok(None);
    };
    let value = arrow_row(alloc, found, around, name, place, operand.into_inner())?;
    held(alloc, value)
}

/// `++` or `--` behind an operand (C11 6.5.2.4).
#[inline(never)]
pub(crate) fn increment_if_any(
    alloc: Global,
    found: &mut Found,
    around: &Around<'_>,
    punct: Punct,
    place: Pos,
    operand: Option<Boxed<Operand>>,
) -> Result<Option<Boxed<Operand>>, Memory>
    ensures { Walks (scopes.asked operand (rows.increment_row (record { punct = punct; place = place }) given.Old)) around.now found.old result found.new }
{
    let Some(operand) = operand else {
        return Ok(None);
    };
    let mark = Mark { punct, place };
    let operand = operand.into_inner();
    let value = increment_row(alloc, found, around, mark, Given::Old, operand)?;
    held(alloc, value)
}

/// An operand that is true or false (C11 6.5.13p2).
#[inline(never)]
pub(crate) fn truth_if_any(
    alloc: Global,
    found: &mut Found,
    around: &Around<'_>,
    place: Pos,
    operand: Option<Boxed<Operand>>,
) -> Result<Option<Boxed<Operand>>, Memory>
    ensures { Walks (scopes.asked operand (rows.truth_row place)) around.now found.old result found.new }
{
    let Some(operand) = operand else {
        return Ok(None);
    };
    let value = truth_row(alloc, found, around, place, operand.into_inner())?;
    held(alloc, value)
}

/// A cast to a type, where no fault stands in that (C11 6.5.4).
#[inline(never)]
pub(crate) fn casting_if_any(place: Pos, ctype: Option<CType>) -> Option<Prefixing>
    ensures { option_map prefixing result ≡ option_map (nodes.Casting place) ctype }
{
    match ctype {
        Some(ctype) => Some(Prefixing::Casting(place, ctype)),
        None => None,
    }
}

/// A call of what a name stands for, where there are arguments (C11 6.5.2.2).
#[inline(never)]
pub(crate) fn call_if_any(
    alloc: Global,
    found: &mut Found,
    around: &Around<'_>,
    function: &Identifier,
    place: Pos,
    arguments: Option<Vec<Argument>>,
) -> Result<Option<Boxed<Operand>>, Memory>
    ensures { Walks (scopes.asked (option_map (λ v. v.items) arguments) (rows.call_row function.now place)) around.now found.old result found.new }
{
    let Some(arguments) = arguments else {
        return Ok(None);
    };
    let value = call_row(alloc, found, around, function, place, arguments)?;
    held(alloc, value)
}

/// `sizeof` of a type, where no fault stands in that (C11 6.5.3.4).
#[inline(never)]
pub(crate) fn size_if_any(
    alloc: Global,
    found: &mut Found,
    around: &Around<'_>,
    place: Pos,
    ctype: Option<CType>,
) -> Result<Option<Boxed<Operand>>, Memory>
    ensures { Walks (scopes.asked ctype (rows.size_row place)) around.now found.old result found.new }
{
    let Some(ctype) = ctype else {
        return Ok(None);
    };
    let size = size_row(alloc, found, around, place, &ctype);
    drop(ctype);
    held(alloc, size?)
}
