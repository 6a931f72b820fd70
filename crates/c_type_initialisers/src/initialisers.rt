//! Initialisers, and where the items of a list go (C11 6.7.9).
//! Walks over the tree of an initialiser, item by item.

ghost use Rattle.std.specs.Option.{option_copied, option_map};
ghost use Rattle.std.specs.Prelude.{◌≡◌, ◌∷◌, [], map, IfOk, is_some};
ghost use Rattle.c_type_initialisers.specs.Braced as braced;
ghost use Rattle.c_type_initialisers.specs.Stacks.{stack, placed};
ghost use Rattle.c_type_walk.specs.Walks.{Walks};
ghost use Rattle.c_typing.specs.Initialisers.{initialiser_typing, initialiser_item_typing};
ghost use Rattle.c_typing.specs.OfInitialisers as spec;
ghost use Rattle.c_typing.specs.Trees.{expr_typing};

use crate::descent::takes_text;
use crate::expressions::{expression_item, fill_single};
use crate::frames::{next_piece, passed_of};
use crate::leaves::{leaves_of, one_leaf, too_many, wrong_at};
use c_tree::typed::CType;
use c_tree::{Expr, Initialiser, InitialiserItem, Pos};
use c_type_rules::is_scalar;
use c_type_trees::{first_token, literal};
use c_type_walk::{Around, Found};
use c_typing::{Filled, Frame, Leaf, Piece};
use std::alloc::Global;
use word_ops::{Items, Memory};

/// The first token of an initialiser.
pub fn first_of_initialiser(tree: &Initialiser) -> Pos
    ensures { result ≡ (initialiser_typing tree.now).first }
{
    match tree {
        Initialiser::Expression(expression) => first_token(expression),
        Initialiser::List { opening, .. } => *opening,
    }
}

/// What an initialiser fills of an object of a type, which begins so many bytes from the start of the whole (C11 6.7.9).
///
/// # Errors
///
/// `Memory` where memory is wanting.
#[cycle(fill)]
pub fn fill(
    alloc: Global,
    found: &mut Found,
    around: &Around<'_>,
    tree: &Initialiser,
    offset: u32,
    ctype: CType,
) -> Result<Option<Filled>, Memory>
    ensures { Walks ((initialiser_typing tree.now).fill offset ctype) around.now found.old result found.new }
{
    match tree {
        Initialiser::Expression(expression) => {
            fill_single(alloc, found, around, expression, offset, ctype)
        }
        Initialiser::List { opening, items, .. } => {
            fill_list(
                alloc,
                found,
                around,
                *opening,
                items.as_slice(),
                offset,
                ctype,
            )
        }
    }
}

/// A list in braces.
#[cycle(fill)]
fn fill_list(
    alloc: Global,
    found: &mut Found,
    around: &Around<'_>,
    list: Pos,
    items: &[InitialiserItem],
    offset: u32,
    ctype: CType,
) -> Result<Option<Filled>, Memory>
    ensures { Walks (spec.fill_list list (map initialiser_item_typing items.now) offset ctype) around.now found.old result found.new }
{
    if is_scalar(&ctype) {
        return scalar_list(alloc, found, around, list, items, offset, ctype);
    }
    let Ok(string) = braced_string(alloc, &ctype, items) else {
        drop(ctype);
        return Err(Memory);
    };
    if let Some(string) = string {
        return fill_single(alloc, found, around, string, offset, ctype);
    }
    let frames = one_open(alloc, offset, ctype)?;
    items_row(alloc, found, around, list, items, frames)
}

/// An object that begins to be filled, and no part of it.
fn one_open(alloc: Global, offset: u32, ctype: CType) -> Result<Items<Frame>, Memory>
    ensures { IfOk result (λ frames. frames ≡ record { ctype = ctype; offset = offset; passed = 0 } ∷ []) }
{
    let frame = Frame {
        ctype,
        offset,
        passed: 0,
    };
    let mut frames = Items::new(alloc);
    if frames.push(frame).is_err() {
        drop(frames);
        return Err(Memory);
    }
    Ok(frames)
}

/// A scalar in braces has one item (C11 6.7.9p11).
#[cycle(fill)]
fn scalar_list(
    alloc: Global,
    found: &mut Found,
    around: &Around<'_>,
    list: Pos,
    items: &[InitialiserItem],
    offset: u32,
    ctype: CType,
) -> Result<Option<Filled>, Memory>
    ensures { Walks (spec.scalar_list list offset ctype (map initialiser_item_typing items.now)) around.now found.old result found.new }
{
    let Some((only, more)) = items.split_first() else {
        drop(ctype);
        return Ok(Some(one_leaf(alloc, Leaf::Wrong)?));
    };
    let filled = fill(alloc, found, around, &only.value, offset, ctype)?;
    if more.is_empty() {
        return Ok(filled);
    }
    too_many(found, around, list, filled)
}

/// The items of a list, each at the next part; those that are open behind the last one tell how many were passed.
#[cycle(fill)]
fn items_row(
    alloc: Global,
    found: &mut Found,
    around: &Around<'_>,
    list: Pos,
    items: &[InitialiserItem],
    frames: Items<Frame>,
) -> Result<Option<Filled>, Memory>
    ensures { Walks (spec.items_row list (map initialiser_item_typing items.now) (stack frames)) around.now found.old result found.new }
{
    let mut frames = frames;
    let mut leaves = Items::new(alloc);
    for item in items {
        let Ok(placed) = item_row(alloc, found, around, list, &item.value, &mut frames) else {
            drop((frames, leaves));
            return Err(Memory);
        };
        let Some(more) = placed else {
            drop((frames, leaves));
            return Ok(None);
        };
        let Ok(()) = leaves.append(more) else {
            drop((frames, leaves));
            return Err(Memory);
        };
    }
    let count = passed_of(&frames);
    drop(frames);
    Ok(Some(Filled { leaves, count }))
}

/// An item; where there is no part left for it, the list has too many of them, and the fault stands at its first token
/// (C11 6.7.9p2).
#[cycle(fill)]
fn item_row(
    alloc: Global,
    found: &mut Found,
    around: &Around<'_>,
    list: Pos,
    item: &Initialiser,
    frames: &mut Items<Frame>,
) -> Result<Option<Items<Leaf>>, Memory>
    ensures { Walks (spec.item_row list (initialiser_typing item.now) (stack frames.old)) around.now found.old (placed result frames.new) found.new }
{
    let Some(piece) = next_piece(alloc, &found.state.structs, frames)? else {
        return Ok(leaves_of(wrong_at(alloc, found, around, list)?));
    };
    match item {
        Initialiser::Expression(expression) => {
            expression_item(alloc, found, around, expression, frames, piece)
        }
        Initialiser::List { opening, items, .. } => {
            let Piece { offset, ctype } = piece;
            let items = items.as_slice();
            let filled = fill_list(alloc, found, around, *opening, items, offset, ctype)?;
            Ok(leaves_of(filled))
        }
    }
}

/// A string for an array of characters may stand in braces (C11 6.7.9p14).
fn braced_string<'a>(
    alloc: Global,
    ctype: &CType,
    items: &'a [InitialiserItem],
) -> Result<Option<&'a Expr>, Memory>
    ensures { IfOk result (λ r. option_map expr_typing (option_copied r) ≡ spec.braced_string ctype.now (map initialiser_item_typing items.now)) }
{
    let [only] = items else {
        return Ok(None);
    };
    match &only.value {
        Initialiser::Expression(expression) => string_if_fits(alloc, ctype, expression),
        Initialiser::List { .. } => Ok(None),
    }
}

/// An expression, where it is a string for an array of characters.
fn string_if_fits<'a>(
    alloc: Global,
    ctype: &CType,
    tree: &'a Expr,
) -> Result<Option<&'a Expr>, Memory>
    ensures { IfOk result (λ r. option_map expr_typing (option_copied r) ≡ braced.string_if_fits ctype.now (expr_typing tree.now)) }
{
    if is_string(alloc, tree)? && takes_text(ctype) {
        Ok(Some(tree))
    } else {
        Ok(None)
    }
}

/// Whether an expression is a string literal.
fn is_string(alloc: Global, tree: &Expr) -> Result<bool, Memory>
    ensures { IfOk result (λ r. r ≡ is_some (expr_typing tree.now).literal) }
{
    let text = literal(alloc, tree)?;
    let is_string = text.is_some();
    drop(text);
    Ok(is_string)
}
