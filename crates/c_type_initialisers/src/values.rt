//! What the parts of an automatic object come to (C11 6.7.9p11, p13).
//! Rows: told the items that a walk found, they give initial values, item by item.

ghost use Rattle.std.specs.Prelude.{◌≡◌, IfOk};
ghost use Rattle.c_type_initialisers.specs.Joined.{one_more};
ghost use Rattle.c_type_walk.specs.Walks.{Walks};
ghost use Rattle.c_typing.specs.Starts as spec;
ghost use Rattle.c_typing.specs.declared.initialiser.Leaf.TheVariants as leaf;

use crate::turns::reversed;
use c_tree::Pos;
use c_tree::typed::{CType, Initial, Initialiser};
use c_type_expressions::given_row;
use c_type_rules::scalar_of;
use c_type_walk::{Around, Found};
use c_typing::{Leaf, Operand};
use std::alloc::Global;
use word_ops::{Items, Memory};

/// The initial value of an automatic object of a type (C11 6.7.9).
///
/// # Errors
///
/// `Memory` where memory is wanting.
pub fn initialiser_row(
    alloc: Global,
    found: &mut Found,
    around: &Around<'_>,
    ctype: &CType,
    leaves: Items<Leaf>,
) -> Result<Option<Initialiser>, Memory>
    ensures { Walks (spec.initialiser_row ctype.now leaves) around.now found.old result found.new }
{
    let Some(initials) = initials_row(alloc, found, around, leaves)? else {
        return Ok(None);
    };
    match scalar_of(ctype) {
        Some(_) => Ok(scalar_initialiser(initials)),
        None => Ok(Some(Initialiser::Aggregate(initials))),
    }
}

fn scalar_initialiser(initials: Items<Initial>) -> Option<Initialiser>
    ensures { result ≡ spec.scalar_initialiser initials }
{
    let mut initials = initials;
    if initials.is_empty() {
        drop(initials);
        return None;
    }
    let first = initials.remove(0);
    drop(initials);
    match first {
        Initial::Value(_, scalar, tree) => Some(Initialiser::Scalar(scalar, tree)),
        Initial::Bytes(_, bytes) => {
            drop(bytes);
            None
        }
    }
}

/// The pieces in order, all of them where nothing is wrong with any.
fn initials_row(
    alloc: Global,
    found: &mut Found,
    around: &Around<'_>,
    leaves: Items<Leaf>,
) -> Result<Option<Items<Initial>>, Memory>
    ensures { Walks (spec.initials_row leaves) around.now found.old result found.new }
{
    let mut rest = reversed(alloc, leaves)?;
    let mut initials = Some(Items::new(alloc));
    while let Some(leaf) = rest.pop() {
        let Ok(initial) = initial_row(alloc, found, around, leaf) else {
            drop((rest, initials));
            return Err(Memory);
        };
        let Ok(longer) = with_initial(initials, initial) else {
            drop(rest);
            return Err(Memory);
        };
        initials = longer;
    }
    drop(rest);
    Ok(initials)
}

/// One more piece behind others, where all are there.
fn with_initial(
    initials: Option<Items<Initial>>,
    initial: Option<Initial>,
) -> Result<Option<Items<Initial>>, Memory>
    ensures { IfOk result (λ r. r ≡ one_more initials initial) }
{
    let Some(mut initials) = initials else {
        drop(initial);
        return Ok(None);
    };
    let Some(initial) = initial else {
        drop(initials);
        return Ok(None);
    };
    if initials.push(initial).is_err() {
        drop(initials);
        return Err(Memory);
    }
    Ok(Some(initials))
}

fn initial_row(
    alloc: Global,
    found: &mut Found,
    around: &Around<'_>,
    leaf: Leaf,
) -> Result<Option<Initial>, Memory>
    ensures { Walks (spec.initial_row leaf) around.now found.old result found.new }
{
    match leaf {
        Leaf::Given {
            offset,
            ctype,
            first,
            value,
        } => {
            let initial = value_initial(alloc, found, around, first, offset, &ctype, value);
            drop(ctype);
            initial
        }
        Leaf::Text(offset, bytes) => Ok(Some(Initial::Bytes(offset, bytes))),
        Leaf::Unfit(_, operand) => {
            drop(operand);
            Ok(None)
        }
        Leaf::Wrong => Ok(None),
    }
}

/// A value for a part of this type, where no fault stands in it.
fn value_initial(
    alloc: Global,
    found: &mut Found,
    around: &Around<'_>,
    first: Pos,
    offset: u32,
    ctype: &CType,
    value: Option<Operand>,
) -> Result<Option<Initial>, Memory>
    ensures { Walks (spec.initial_row (leaf.Given offset ctype.now first value)) around.now found.old result found.new }
{
    let Some(operand) = value else {
        return Ok(None);
    };
    let Some(tree) = given_row(alloc, found, around, first, ctype, operand)? else {
        return Ok(None);
    };
    let Some(scalar) = scalar_of(ctype) else {
        drop(tree);
        return Ok(None);
    };
    Ok(Some(Initial::Value(offset, scalar, tree)))
}
