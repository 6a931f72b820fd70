//! Which part an expression without braces initialises (C11 6.7.9p13, p14, p20).
//! No walk of trees: down the type of a part, to the first part that the expression may initialise.

ghost use Rattle.std.specs.Prelude.{◌≡◌, IfOk, OnOk};
ghost use Rattle.c_type_initialisers.specs.Stacks.{stack};
ghost use Rattle.c_type_rules.specs.Shapes.{lent};
ghost use Rattle.c_typing.specs.OfInitialisers as spec;
ghost use Rattle.c_typing.specs.Types as types;

use crate::parts::part_by;
use c_layout::Tags;
use c_tree::typed::{Base, CType};
use c_type_rules::{LentType, TypeShape, is_scalar, is_struct, shape};
use c_typing::{Frame, Piece};
use std::alloc::Global;
use word_ops::{Items, Memory};

/// What of an expression says which parts it initialises as a whole (C11 6.7.9p13, p14).
#[derive(Clone, Copy)]
pub(crate) struct Whole {
    /// it is a string literal
    pub is_string: bool,
    /// it has a structure type
    pub is_structure: bool,
}

impl Whole {
    /// Whether the expression initialises an object of this type as a whole: one of scalar type, an array of characters by a
    /// string, a structure by a value of such a type.
    fn takes(self, ctype: &CType) -> bool
        ensures { result ≡ spec.takes_whole self.is_string self.is_structure ctype.now }
    {
        is_scalar(ctype)
            || ((self.is_string && takes_text(ctype)) || (self.is_structure && is_struct(ctype)))
    }
}

/// Whether a type is an array of characters (C11 6.7.9p14).
pub(crate) fn takes_text(ctype: &CType) -> bool
    ensures { result ≡ spec.takes_text (types.shape ctype.now) }
{
    match shape(ctype) {
        TypeShape::ArrayOf(_, element) => is_character(element),
        _ => false,
    }
}

/// Whether a type is a character type (C11 6.2.5p15).
pub(crate) fn is_character(ctype: LentType<'_>) -> bool
    ensures { result ≡ types.is_character (lent ctype.entry) }
{
    matches!(
        ctype.shape(),
        TypeShape::Basic(Base::Char | Base::SignedChar | Base::UnsignedChar)
    )
}

/// The part of a part that an expression initialises: the first one of it that the expression takes as a whole, or that has
/// no parts itself. The aggregates on the way are open then.
pub(crate) fn descend(
    alloc: Global,
    tags: &Tags,
    whole: Whole,
    frames: &mut Items<Frame>,
    piece: Piece,
) -> Result<Piece, Memory>
    ensures piece { IfOk result (λ p. p ≡ (spec.descend spec.greatest_depth tags.now (spec.takes_whole whole.is_string whole.is_structure) (stack frames.old) piece).1) }
    ensures open { OnOk result (stack frames.new ≡ (spec.descend spec.greatest_depth tags.now (spec.takes_whole whole.is_string whole.is_structure) (stack frames.old) piece).0) }
{
    let mut piece = piece;
    for _depth in 0..u64::MAX {
        if whole.takes(&piece.ctype) {
            return Ok(piece);
        }
        let Ok(part) = part_by(alloc, tags, &piece.ctype, piece.offset, 0) else {
            drop(piece);
            return Err(Memory);
        };
        let Some(first) = part else {
            return Ok(piece);
        };
        let frame = Frame {
            ctype: piece.ctype,
            offset: piece.offset,
            passed: 1,
        };
        let Ok(()) = frames.push(frame) else {
            drop(first);
            return Err(Memory);
        };
        piece = first;
    }
    Ok(piece)
}
