//! The rows of prefix operators (C11 6.5.3, 6.5.4), of which each is the row of its
//! operator, of `sizeof` or of a cast.

ghost use Rattle.c_typing.specs.OfTrees as spec;
ghost use Rattle.c_type_walk.specs.Walks.{Walks};
ghost use Rattle.c_type_expressions.specs.Prefixes.{prefixing};

use crate::arithmetic::{Promoting, promoted_row};
use crate::casts::cast_row;
use crate::increments::increment_row;
use crate::places::{address_row, indirection_row};
use crate::sizes::size_row;
use crate::truth::not_row;
use c_tree::typed::{CType, Given};
use c_tree::{Mark, Pos, Punct};
use c_type_rules::valued;
use c_type_walk::{Around, Found};
use c_typing::Operand;
use std::alloc::Global;
use word_ops::Memory;

/// What a prefix does to the operand behind it.
#[derive(Drop)]
pub enum Prefixing {
    /// an operator
    Marking(Mark),
    /// `sizeof`, by its place
    Sizing(Pos),
    /// a cast to this type, by its place
    Casting(Pos, CType),
}

/// A prefix and the operand behind it (C11 6.5.3, 6.5.4).
///
/// # Errors
///
/// `Memory` where memory is wanting.
pub fn prefix_row(
    alloc: Global,
    found: &mut Found,
    around: &Around<'_>,
    prefix: Prefixing,
    operand: Operand,
) -> Result<Option<Operand>, Memory>
    ensures { Walks (spec.prefix_row (prefixing prefix) operand) around.now found.old result found.new }
{
    match prefix {
        Prefixing::Marking(mark) => mark_row(alloc, found, around, mark, operand),
        Prefixing::Sizing(place) => {
            let size = size_row(alloc, found, around, place, &operand.ctype);
            drop(operand);
            size
        }
        Prefixing::Casting(place, ctype) => {
            cast_row(alloc, found, around, place, ctype, operand)
        }
    }
}

/// A prefix operator and the operand behind it; an operator that is none of the others is `++` or `--` (C11 6.5.3).
///
/// # Errors
///
/// `Memory` where memory is wanting.
fn mark_row(
    alloc: Global,
    found: &mut Found,
    around: &Around<'_>,
    mark: Mark,
    operand: Operand,
) -> Result<Option<Operand>, Memory>
    ensures { Walks (spec.mark_row mark.punct mark operand) around.now found.old result found.new }
{
    let place = mark.place;
    match mark.punct {
        Punct::Ampersand => address_row(alloc, found, around, place, operand),
        Punct::Star => indirection_row(alloc, found, around, place, operand),
        Punct::Plus => promoted_row(alloc, found, around, Promoting::Plus, place, operand),
        Punct::Minus => promoted_row(alloc, found, around, Promoting::Minus, place, operand),
        Punct::Tilde => promoted_row(alloc, found, around, Promoting::Complement, place, operand),
        Punct::Not => {
            let value = valued(alloc, operand)?;
            not_row(alloc, found, around, place, value)
        }
        _ => increment_row(alloc, found, around, mark, Given::New, operand),
    }
}
