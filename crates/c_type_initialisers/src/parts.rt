//! The parts of aggregates by their numbers (C11 6.7.9p17).
//! No walk of trees: which type a part has, and where it lies.

ghost use Rattle.std.specs.Prelude.{◌≡◌, ◌+◌, IfOk, slice_get};
ghost use Rattle.c_tree.specs.declared.typed.types.Base.TheVariants as base;
ghost use Rattle.c_type_rules.specs.Shapes.{lent};
ghost use Rattle.c_typing.specs.OfInitialisers as spec;
ghost use Rattle.c_typing.specs.Types as types;

use c_layout::{Tags, size};
use c_tree::typed::{Base, CType};
use c_type_rules::{LentType, TypeShape, copied, in_word, shape};
use c_typing::{Frame, Piece};
use std::alloc::Global;
use word_ops::Memory;

/// The next part of an aggregate that is being filled, or `None` exactly where all were passed (C11 6.7.9p17).
pub(crate) fn next_part(alloc: Global, tags: &Tags, frame: &Frame) -> Result<Option<Piece>, Memory>
    ensures { IfOk result (λ p. p ≡ spec.next_part tags.now frame.now) }
{
    part_by(alloc, tags, &frame.ctype, frame.offset, frame.passed)
}

/// A part of an object of this type that begins at this offset, by its number, or `None` exactly where it has no such part:
/// an element of an array, or a member of a structure.
pub(crate) fn part_by(
    alloc: Global,
    tags: &Tags,
    ctype: &CType,
    offset: u32,
    number: u64,
) -> Result<Option<Piece>, Memory>
    ensures { IfOk result (λ p. p ≡ spec.part_by tags.now (types.shape ctype.now) offset number) }
{
    match shape(ctype) {
        TypeShape::ArrayOf(None, element) => {
            Ok(Some(element_part(alloc, tags, offset, number, element)?))
        }
        TypeShape::ArrayOf(Some(count), element) => {
            if number < count {
                Ok(Some(element_part(alloc, tags, offset, number, element)?))
            } else {
                Ok(None)
            }
        }
        TypeShape::Basic(Base::Struct(tag)) => member_part(alloc, tags, tag, offset, number),
        _ => Ok(None),
    }
}

fn element_part(
    alloc: Global,
    tags: &Tags,
    offset: u32,
    number: u64,
    element: LentType<'_>,
) -> Result<Piece, Memory>
    ensures { IfOk result (λ p. p ≡ spec.element_part tags.now offset number (lent element.entry)) }
{
    let ctype = element.copied(alloc)?;
    let bytes = size(&ctype, tags).unwrap_or(0);
    Ok(Piece {
        offset: behind(offset, number.saturating_mul(bytes)),
        ctype,
    })
}

fn member_part(
    alloc: Global,
    tags: &Tags,
    tag: u32,
    offset: u32,
    number: u64,
) -> Result<Option<Piece>, Memory>
    ensures { IfOk result (λ p. p ≡ spec.member_part offset (slice_get (spec.members_of tags.now (base.Struct tag)) number)) }
{
    let Some(layout) = tags.layout(tag) else {
        return Ok(None);
    };
    let Some(member) = layout.members.get(number as usize) else {
        return Ok(None);
    };
    Ok(Some(Piece {
        offset: behind(offset, member.offset),
        ctype: copied(alloc, &member.ctype)?,
    }))
}

/// A number of bytes and further ones, as 32 bits hold it.
fn behind(offset: u32, bytes: u64) -> u32
    ensures { result ≡ types.in_word (offset + bytes) }
{
    in_word(u64::from(offset).saturating_add(bytes))
}
