//! Parts of objects that are initialised.
//! Rows: what an expression gives a part of a type.

ghost use Rattle.std.specs.Option.{option_map};
ghost use Rattle.std.specs.Prelude.{◌≡◌, ◌∷◌, ◌++◌, [], Some, IfOk};
ghost use Rattle.c_type_initialisers.specs.Braced as braced;
ghost use Rattle.c_type_walk.specs.Walks.{Walks};
ghost use Rattle.c_typing.specs.OfInitialisers as spec;
ghost use Rattle.c_typing.specs.declared.initialiser.Leaf.TheVariants as leaf;

use c_tree::{FaultKind, Pos};
use c_type_walk::{Around, Found};
use c_typing::{Filled, Leaf, Operand};
use std::alloc::Global;
use word_ops::{Items, Memory, Text};

/// One more part behind others.
fn with_leaf(list: Items<Leaf>, leaf: Leaf) -> Result<Items<Leaf>, Memory>
    ensures { IfOk result (λ longer. longer ≡ list ++ leaf ∷ []) }
{
    let mut list = list;
    if list.push(leaf).is_err() {
        drop(list);
        return Err(Memory);
    }
    Ok(list)
}

/// One part alone.
pub(crate) fn one_leaf(alloc: Global, leaf: Leaf) -> Result<Filled, Memory>
    ensures { IfOk result (λ r. r ≡ record { leaves = leaf ∷ []; count = 1 }) }
{
    Ok(Filled {
        leaves: with_leaf(Items::new(alloc), leaf)?,
        count: 1,
    })
}

/// Nothing that is right, and the fault that it is (C11 6.7.9p2, p11).
pub(crate) fn wrong_at(
    alloc: Global,
    found: &mut Found,
    around: &Around<'_>,
    place: Pos,
) -> Result<Option<Filled>, Memory>
    ensures { Walks (spec.wrong_at place) around.now found.old result found.new }
{
    let _around = around;
    found.tell_if(true, FaultKind::Mismatch, place)?;
    Ok(Some(one_leaf(alloc, Leaf::Wrong)?))
}

/// An expression that does not fit, and the fault that it is (C11 6.7.9p14).
pub(crate) fn unfit_at(
    alloc: Global,
    found: &mut Found,
    around: &Around<'_>,
    place: Pos,
    operand: Operand,
) -> Result<Option<Filled>, Memory>
    ensures { Walks (spec.unfit_at place operand) around.now found.old result found.new }
{
    let _around = around;
    let Ok(()) = found.tell_if(true, FaultKind::Mismatch, place) else {
        drop(operand);
        return Err(Memory);
    };
    Ok(Some(one_leaf(alloc, Leaf::Unfit(place, operand))?))
}

/// The parts that the first of too many items filled, and the fault that the others are (C11 6.7.9p2).
pub(crate) fn too_many(
    found: &mut Found,
    around: &Around<'_>,
    list: Pos,
    filled: Option<Filled>,
) -> Result<Option<Filled>, Memory>
    ensures { Walks (braced.too_many list filled) around.now found.old result found.new }
{
    let _around = around;
    let Some(filled) = filled else {
        return Ok(None);
    };
    let leaves = filled.leaves;
    let Ok(()) = found.tell_if(true, FaultKind::Mismatch, list) else {
        drop(leaves);
        return Err(Memory);
    };
    Ok(Some(Filled {
        leaves: with_leaf(leaves, Leaf::Wrong)?,
        count: 1,
    }))
}

/// A string for an array of so many characters; the zero byte at its end may be left out (C11 6.7.9p14).
pub(crate) fn text_row(
    alloc: Global,
    found: &mut Found,
    around: &Around<'_>,
    offset: u32,
    place: Pos,
    bytes: Text,
    count: Option<u64>,
) -> Result<Option<Filled>, Memory>
    ensures { Walks (spec.text_row offset place bytes count) around.now found.old result found.new }
{
    let length = bytes.as_slice().len() as u64;
    match count {
        None => Ok(Some(text_filled(alloc, offset, bytes, length + 1)?)),
        Some(count) => {
            if length <= count {
                Ok(Some(text_filled(alloc, offset, bytes, count)?))
            } else {
                drop(bytes);
                wrong_at(alloc, found, around, place)
            }
        }
    }
}

fn text_filled(alloc: Global, offset: u32, bytes: Text, count: u64) -> Result<Filled, Memory>
    ensures { IfOk result (λ r. r ≡ record { leaves = leaf.Text offset bytes ∷ []; count = count }) }
{
    let leaves = with_leaf(Items::new(alloc), Leaf::Text(offset, bytes))?;
    Ok(Filled { leaves, count })
}

/// The parts that were filled, without their number.
pub(crate) fn leaves_of(filled: Option<Filled>) -> Option<Items<Leaf>>
    ensures { result ≡ option_map (λ r. r.leaves) filled }
{
    match filled {
        Some(filled) => Some(filled.leaves),
        None => None,
    }
}
