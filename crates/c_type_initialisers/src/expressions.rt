//! Expressions that initialise an object or a part of one (C11 6.7.9p11, p13, p14, p20).
//! Walks over single expressions, by c_type_trees, and hands what they are to rows.

ghost use Rattle.std.specs.Prelude.{◌≡◌, ◌∷◌, [], IfOk, Option, List, ℕ, is_some};
ghost use Rattle.c_type_initialisers.specs.Stacks.{stack, placed};
ghost use Rattle.c_type_rules.specs.Shapes.{lent};
ghost use Rattle.c_type_walk.specs.Walks.{Walks};
ghost use Rattle.c_typing.specs.OfInitialisers as spec;
ghost use Rattle.c_typing.specs.declared.initialiser.Leaf.TheVariants as leaf;
ghost use Rattle.c_typing.specs.Trees.{expr_typing};
ghost use Rattle.c_typing.specs.Types as types;

use crate::descent::{Whole, descend, is_character, takes_text};
use crate::leaves::{leaves_of, one_leaf, text_row, unfit_at, wrong_at};
use c_layout::Tags;
use c_tree::typed::CType;
use c_tree::{Expr, Pos};
use c_type_rules::{LentType, TypeShape, copied, is_struct, shape};
use c_type_trees::{expr, first_token, literal};
use c_type_walk::{Around, Found};
use c_typing::{Filled, Frame, Leaf, Operand, Piece};
use std::alloc::Global;
use word_ops::{Items, Memory, Text};

/// An expression that is an initialiser by itself (C11 6.7.9p11, p13, p14).
pub(crate) fn fill_single(
    alloc: Global,
    found: &mut Found,
    around: &Around<'_>,
    tree: &Expr,
    offset: u32,
    ctype: CType,
) -> Result<Option<Filled>, Memory>
    ensures { Walks (spec.fill_single (expr_typing tree.now) offset ctype) around.now found.old result found.new }
{
    match shape(&ctype) {
        TypeShape::ArrayOf(count, element) => {
            let filled = array_single(alloc, found, around, tree, offset, count, element);
            drop(ctype);
            filled
        }
        _ => given_leaf(alloc, found, around, tree, offset, ctype),
    }
}

/// An array takes a string alone without braces (C11 6.7.9p14, p16).
fn array_single(
    alloc: Global,
    found: &mut Found,
    around: &Around<'_>,
    tree: &Expr,
    offset: u32,
    count: Option<u64>,
    element: LentType<'_>,
) -> Result<Option<Filled>, Memory>
    ensures { Walks (spec.array_single offset (expr_typing tree.now) (expr_typing tree.now).literal count (lent element.entry)) around.now found.old result found.new }
{
    let place = first_token(tree);
    let Some(bytes) = literal(alloc, tree)? else {
        return match expr(alloc, found, around, tree)? {
            Some(operand) => unfit_at(alloc, found, around, place, operand),
            None => Ok(Some(one_leaf(alloc, Leaf::Wrong)?)),
        };
    };
    if is_character(element) {
        text_row(alloc, found, around, offset, place, bytes, count)
    } else {
        drop(bytes);
        wrong_at(alloc, found, around, place)
    }
}

fn given_leaf(
    alloc: Global,
    found: &mut Found,
    around: &Around<'_>,
    tree: &Expr,
    offset: u32,
    ctype: CType,
) -> Result<Option<Filled>, Memory>
    ensures { Walks (spec.given_leaf offset ctype (expr_typing tree.now)) around.now found.old result found.new }
{
    let Ok(value) = expr(alloc, found, around, tree) else {
        drop(ctype);
        return Err(Memory);
    };
    Ok(Some(one_leaf(
        alloc,
        Leaf::Given {
            offset,
            ctype,
            first: first_token(tree),
            value,
        },
    )?))
}

/// An expression in a list, and the part at which it stands: it initialises that part, or the first one of it that it takes
/// (C11 6.7.9p20).
pub(crate) fn expression_item(
    alloc: Global,
    found: &mut Found,
    around: &Around<'_>,
    tree: &Expr,
    frames: &mut Items<Frame>,
    piece: Piece,
) -> Result<Option<Items<Leaf>>, Memory>
    ensures { Walks (spec.expression_item (expr_typing tree.now) (stack frames.old) piece) around.now found.old (placed result frames.new) found.new }
{
    let Ok(literal) = literal(alloc, tree) else {
        drop(piece);
        return Err(Memory);
    };
    let first = first_token(tree);
    let Ok(is_string) = is_string_for(alloc, &found.state.structs, literal.is_some(), &piece) else {
        drop((literal, piece));
        return Err(Memory);
    };
    if is_string {
        let string = Single {
            first,
            literal,
            value: None,
        };
        return expression_placed(alloc, found, around, string, frames, piece);
    }
    let Ok(value) = expr(alloc, found, around, tree) else {
        drop((literal, piece));
        return Err(Memory);
    };
    let single = Single {
        first,
        literal,
        value,
    };
    expression_placed(alloc, found, around, single, frames, piece)
}

/// Whether an expression that is a string literal or not initialises an array as one: it makes no object of its own then.
fn is_string_for(alloc: Global, tags: &Tags, is_string: bool, piece: &Piece) -> Result<bool, Memory>
    ensures { (literal : Option (List ℕ)) → is_string ≡ is_some literal → IfOk result (λ r. r ≡ spec.is_string_for tags.now literal piece.now) }
{
    if !is_string {
        return Ok(false);
    }
    let whole = Whole {
        is_string,
        is_structure: false,
    };
    let piece = Piece {
        offset: piece.offset,
        ctype: copied(alloc, &piece.ctype)?,
    };
    let reached = reached_alone(alloc, tags, whole, piece)?;
    let is_taken = takes_text(&reached.ctype);
    drop(reached);
    Ok(is_taken)
}

/// The part of a part that an expression initialises, where no aggregate is open around it.
fn reached_alone(alloc: Global, tags: &Tags, whole: Whole, piece: Piece) -> Result<Piece, Memory>
    ensures { IfOk result (λ p. p ≡ (spec.descend spec.greatest_depth tags.now (spec.takes_whole whole.is_string whole.is_structure) [] piece).1) }
{
    let mut frames = Items::new(alloc);
    let reached = descend(alloc, tags, whole, &mut frames, piece);
    drop(frames);
    reached
}

/// An expression in a list.
#[derive(Drop)]
struct Single {
    /// its first token
    first: Pos,
    /// its bytes where it is a string literal
    literal: Option<Text>,
    /// what it is, where that is asked and no fault stands in it
    value: Option<Operand>,
}

fn expression_placed(
    alloc: Global,
    found: &mut Found,
    around: &Around<'_>,
    single: Single,
    frames: &mut Items<Frame>,
    piece: Piece,
) -> Result<Option<Items<Leaf>>, Memory>
    ensures { Walks (spec.expression_placed single.first single.literal (stack frames.old) piece single.value) around.now found.old (placed result frames.new) found.new }
{
    let whole = Whole {
        is_string: single.literal.is_some(),
        is_structure: is_struct_value(&single.value),
    };
    let Ok(reached) = descend(alloc, &found.state.structs, whole, frames, piece) else {
        drop(single);
        return Err(Memory);
    };
    Ok(leaves_of(leaf_at(alloc, found, around, single, reached)?))
}

/// Whether an operand has a structure type.
fn is_struct_value(value: &Option<Operand>) -> bool
    ensures { result ≡ spec.is_struct_value value.now }
{
    match value {
        Some(operand) => is_struct(&operand.ctype),
        None => false,
    }
}

/// The part that an expression initialises: bytes where it is a string for an array, else a value.
fn leaf_at(
    alloc: Global,
    found: &mut Found,
    around: &Around<'_>,
    single: Single,
    piece: Piece,
) -> Result<Option<Filled>, Memory>
    ensures { Walks (spec.leaf_at single.first single.literal single.value piece (types.shape piece.ctype)) around.now found.old result found.new }
{
    let Single {
        first,
        literal,
        value,
    } = single;
    let Some(bytes) = literal else {
        return Ok(Some(value_leaf(alloc, first, value, piece)?));
    };
    let TypeShape::ArrayOf(count, _) = shape(&piece.ctype) else {
        drop(bytes);
        return Ok(Some(value_leaf(alloc, first, value, piece)?));
    };
    let offset = piece.offset;
    drop((value, piece));
    text_row(alloc, found, around, offset, first, bytes, count)
}

/// A value for a part.
fn value_leaf(
    alloc: Global,
    first: Pos,
    value: Option<Operand>,
    piece: Piece,
) -> Result<Filled, Memory>
    ensures { IfOk result (λ r. r ≡ record { leaves = leaf.Given piece.offset piece.ctype first value ∷ []; count = 1 }) }
{
    let leaf = Leaf::Given {
        offset: piece.offset,
        ctype: piece.ctype,
        first,
        value,
    };
    one_leaf(alloc, leaf)
}
