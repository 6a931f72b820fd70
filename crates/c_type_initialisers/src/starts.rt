//! What the parts of a static object come to (C11 6.6p7, p9, 6.7.9p4, p10).
//! Rows: told the items that a walk found, they give bytes and addresses, item by item.

ghost use Rattle.std.specs.Prelude.{◌≡◌, IfOk};
ghost use Rattle.c_type_initialisers.specs.Joined.{all_more};
ghost use Rattle.c_layout.specs.Constants.{constant_of};
ghost use Rattle.c_type_walk.specs.Walks.{Walks};
ghost use Rattle.c_typing.specs.Starts as spec;
ghost use Rattle.c_typing.specs.declared.initialiser.Leaf.TheVariants as leaf;

use crate::addresses::address_of;
use crate::bytes::{number_parts, one_part, text_parts};
use crate::constants::{is_constant_start, is_null_pointer, points};
use crate::turns::reversed;
use c_layout::constant;
use c_tree::typed::{CType, Scalar, StaticPart, TExpr};
use c_tree::{FaultKind, Pos};
use c_type_expressions::given_row;
use c_type_rules::{is_bool, scalar_of, tree_of, valued};
use c_type_walk::{Around, Found};
use c_typing::{Leaf, Operand};
use std::alloc::Global;
use word_ops::{Items, Memory, Text};

/// What stands in a static object as the program begins, where that is not zero (C11 6.7.9p4, p10).
///
/// # Errors
///
/// `Memory` where memory is wanting.
pub fn starts_row(
    alloc: Global,
    found: &mut Found,
    around: &Around<'_>,
    leaves: Items<Leaf>,
) -> Result<Option<Items<StaticPart>>, Memory>
    ensures { Walks (spec.starts_row leaves) around.now found.old result found.new }
{
    let mut rest = reversed(alloc, leaves)?;
    let mut parts = Some(Items::new(alloc));
    while let Some(leaf) = rest.pop() {
        let Ok(more) = start_row(alloc, found, around, leaf) else {
            drop((rest, parts));
            return Err(Memory);
        };
        let Ok(longer) = with_parts(parts, more) else {
            drop(rest);
            return Err(Memory);
        };
        parts = longer;
    }
    drop(rest);
    Ok(parts)
}

/// More parts behind others, where all are there.
fn with_parts(
    parts: Option<Items<StaticPart>>,
    more: Option<Items<StaticPart>>,
) -> Result<Option<Items<StaticPart>>, Memory>
    ensures { IfOk result (λ r. r ≡ all_more parts more) }
{
    let Some(mut parts) = parts else {
        drop(more);
        return Ok(None);
    };
    let Some(more) = more else {
        drop(parts);
        return Ok(None);
    };
    if parts.append(more).is_err() {
        drop(parts);
        return Err(Memory);
    }
    Ok(Some(parts))
}

fn start_row(
    alloc: Global,
    found: &mut Found,
    around: &Around<'_>,
    leaf: Leaf,
) -> Result<Option<Items<StaticPart>>, Memory>
    ensures { Walks (spec.start_row leaf) around.now found.old result found.new }
{
    match leaf {
        Leaf::Given {
            offset,
            ctype,
            first,
            value,
        } => {
            let start = value_start(alloc, found, around, first, offset, &ctype, value);
            drop(ctype);
            start
        }
        Leaf::Text(offset, bytes) => Ok(Some(text_parts(alloc, offset, bytes)?)),
        Leaf::Unfit(first, operand) => unfit_start(found, around, first, operand),
        Leaf::Wrong => Ok(None),
    }
}

/// A value for a part of this type, where no fault stands in it.
fn value_start(
    alloc: Global,
    found: &mut Found,
    around: &Around<'_>,
    first: Pos,
    offset: u32,
    ctype: &CType,
    value: Option<Operand>,
) -> Result<Option<Items<StaticPart>>, Memory>
    ensures { Walks (spec.start_row (leaf.Given offset ctype.now first value)) around.now found.old result found.new }
{
    match value {
        Some(operand) => given_start(alloc, found, around, first, offset, ctype, operand),
        None => Ok(None),
    }
}

/// What an expression that has no fault gives a part of a static object: it is constant (C11 6.7.9p4).
fn given_start(
    alloc: Global,
    found: &mut Found,
    around: &Around<'_>,
    first: Pos,
    offset: u32,
    ctype: &CType,
    operand: Operand,
) -> Result<Option<Items<StaticPart>>, Memory>
    ensures { Walks (spec.given_start first offset ctype.now operand) around.now found.old result found.new }
{
    if is_constant_start(found, around, &operand) {
        constant_start(alloc, found, around, first, offset, ctype, operand)
    } else {
        not_constant(alloc, found, around, first, ctype, operand)
    }
}

fn constant_start(
    alloc: Global,
    found: &mut Found,
    around: &Around<'_>,
    first: Pos,
    offset: u32,
    ctype: &CType,
    operand: Operand,
) -> Result<Option<Items<StaticPart>>, Memory>
    ensures { Walks (spec.constant_start first offset ctype.now operand) around.now found.old result found.new }
{
    if is_bool(ctype) && points(&operand) {
        let tree = tree_of(alloc, valued(alloc, operand)?)?;
        let truth = pointer_truth(alloc, found, around, first, offset, &tree);
        drop(tree);
        return truth;
    }
    let Some(tree) = given_row(alloc, found, around, first, ctype, operand)? else {
        return Ok(None);
    };
    let parts = value_parts(alloc, found, around, first, offset, scalar_of(ctype), &tree);
    drop(tree);
    parts
}

/// An expression that is not constant, and what else is wrong with it for this type.
fn not_constant(
    alloc: Global,
    found: &mut Found,
    around: &Around<'_>,
    first: Pos,
    ctype: &CType,
    operand: Operand,
) -> Result<Option<Items<StaticPart>>, Memory>
    ensures { Walks (spec.not_constant first ctype.now operand) around.now found.old result found.new }
{
    let Ok(()) = found.tell_if(true, FaultKind::NotConstant, first) else {
        drop(operand);
        return Err(Memory);
    };
    let given = given_row(alloc, found, around, first, ctype, operand)?;
    drop(given);
    Ok(None)
}

/// An expression of which a fault was told: that it is not constant is another one.
fn unfit_start(
    found: &mut Found,
    around: &Around<'_>,
    first: Pos,
    operand: Operand,
) -> Result<Option<Items<StaticPart>>, Memory>
    ensures { Walks (spec.unfit_start first operand) around.now found.old result found.new }
{
    let constant = is_constant_start(found, around, &operand);
    drop(operand);
    if constant {
        return Ok(None);
    }
    found.tell(around, FaultKind::NotConstant, first)
}

fn value_parts(
    alloc: Global,
    found: &mut Found,
    around: &Around<'_>,
    first: Pos,
    offset: u32,
    scalar: Option<Scalar>,
    tree: &TExpr,
) -> Result<Option<Items<StaticPart>>, Memory>
    ensures { Walks (spec.value_parts first offset scalar tree.now (constant_of tree.now)) around.now found.old result found.new }
{
    match scalar {
        Some(Scalar::Pointer) => pointer_parts(alloc, found, around, first, offset, tree),
        Some(scalar) => match constant(tree) {
            Some(number) => Ok(Some(number_parts(alloc, offset, scalar, number)?)),
            None => found.tell(around, FaultKind::NotConstant, first),
        },
        None => found.tell(around, FaultKind::NotConstant, first),
    }
}

fn pointer_parts(
    alloc: Global,
    found: &mut Found,
    around: &Around<'_>,
    first: Pos,
    offset: u32,
    tree: &TExpr,
) -> Result<Option<Items<StaticPart>>, Memory>
    ensures { Walks (spec.pointer_parts first offset tree.now) around.now found.old result found.new }
{
    if is_null_pointer(tree) {
        return Ok(Some(Items::new(alloc)));
    }
    match address_of(tree, found, around) {
        Some(address) => {
            let part = StaticPart::Address(offset, address.object, address.offset);
            Ok(Some(one_part(alloc, part)?))
        }
        None => found.tell(around, FaultKind::NotConstant, first),
    }
}

/// A pointer as a `_Bool` (C11 6.3.1.2): a null pointer constant is 0, and no address is.
fn pointer_truth(
    alloc: Global,
    found: &mut Found,
    around: &Around<'_>,
    first: Pos,
    offset: u32,
    tree: &TExpr,
) -> Result<Option<Items<StaticPart>>, Memory>
    ensures { Walks (spec.pointer_truth first offset tree.now) around.now found.old result found.new }
{
    if is_null_pointer(tree) {
        return Ok(Some(Items::new(alloc)));
    }
    match address_of(tree, found, around) {
        Some(_) => {
            let bytes = Text::from_vec(vec![in alloc; 1]?);
            Ok(Some(one_part(alloc, StaticPart::Bytes(offset, bytes))?))
        }
        None => found.tell(around, FaultKind::NotConstant, first),
    }
}
