//! Tags (C11 6.7.2.3).
//! Rows: a tag alone, or before a list.

ghost use Rattle.c_typing.specs.Declarators as spec;
ghost use Rattle.c_type_walk.specs.Walks.{Walks};

use crate::structures::new_struct;
use c_tree::typed::{Base, CType};
use c_tree::{FaultKind, Identifier};
use c_type_rules::plain;
use c_type_walk::{Around, Found};
use c_typing::Tag;
use std::alloc::Global;
use word_ops::Memory;

/// `struct` and a tag: the structure type that the tag stands for. A tag that is not visible is declared here, as an
/// incomplete type; so it is where it stands alone and this scope has not declared it (C11 6.7.2.3p7, p8).
///
/// # Errors
///
/// `Memory` where memory is wanting.
pub fn struct_tag_row(
    alloc: Global,
    found: &mut Found,
    around: &Around<'_>,
    tag: &Identifier,
    alone: bool,
) -> Result<Option<CType>, Memory>
    ensures { Walks (spec.struct_tag_row tag.now alone) around.now found.old result found.new }
{
    let meant = if alone {
        found.own_tag(around, &tag.text)
    } else {
        found.tag(&tag.text)
    };
    match meant {
        Some(Tag::StructTag(number, _)) => Ok(Some(plain(alloc, Base::Struct(number)))),
        Some(Tag::EnumTag(_, _)) => found.tell(around, FaultKind::Redeclared, tag.place),
        None => declared_struct(alloc, found, around, tag),
    }
}

/// Declares a tag as a new structure type, which is incomplete (C11 6.7.2.3p8).
fn declared_struct(
    alloc: Global,
    found: &mut Found,
    around: &Around<'_>,
    tag: &Identifier,
) -> Result<Option<CType>, Memory>
    ensures { Walks (spec.struct_meant tag.now None) around.now found.old result found.new }
{
    let number = new_struct(found)?;
    found.declare_tag(alloc, &tag.text, Tag::StructTag(number, false))?;
    Ok(Some(plain(alloc, Base::Struct(number))))
}

/// `enum` and a tag, which is visible and stands for an enumerated type whose list has ended (C11 6.7.2.3p3).
///
/// # Errors
///
/// `Memory` where memory for the fault is wanting.
pub fn enum_tag_row(
    alloc: Global,
    found: &mut Found,
    around: &Around<'_>,
    tag: &Identifier,
) -> Result<Option<CType>, Memory>
    ensures { Walks (spec.enum_tag_row tag.now) around.now found.old result found.new }
{
    match found.tag(&tag.text) {
        Some(Tag::EnumTag(number, true)) => Ok(Some(plain(alloc, Base::Enum(number)))),
        Some(Tag::EnumTag(_, false)) => found.tell(around, FaultKind::Incomplete, tag.place),
        Some(Tag::StructTag(_, _)) => found.tell(around, FaultKind::Redeclared, tag.place),
        None => found.tell(around, FaultKind::Undeclared, tag.place),
    }
}
