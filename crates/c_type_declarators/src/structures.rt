//! Structures (C11 6.7.2.1).
//! Rows: a structure begins, and ends with its members, from their names and types.

ghost use Rattle.std.specs.Prelude.{◌≡◌, ◌++◌, ◌∷◌, [], length, slice_set, nat_lt, true, IfOk, OnOk};
ghost use Rattle.std.specs.List.{list_any};
ghost use Rattle.std.specs.Option.{option_copied, option_map};
ghost use Rattle.c_typing.specs.Declarators as spec;
ghost use Rattle.std.specs.Str.{bytes_eq};
ghost use Rattle.c_typing.specs.Scopes as scopes;
ghost use Rattle.c_layout.specs.Tags.{is_alignment};
ghost use Rattle.c_tree.specs.declared.refusal.FaultKind.TheVariants as kind;
ghost use Rattle.c_type_walk.specs.Walks.{Walks};

use crate::derivations::{MOST_BYTES, complete_row};
use crate::names::copied_identifier;
use c_layout::{StructLayout, lay_out};
use c_tree::typed::{Base, CType};
use c_tree::{FaultKind, Identifier, Pos};
use c_type_rules::{copied, is_read_only, plain};
use c_type_walk::{Around, Found, copied_text};
use c_typing::Tag;
use indexed_list::IndexedList;
use std::alloc::Global;
use word_ops::{Items, Memory, Text};

/// The number of a structure whose list of members begins here: that of its tag, where this scope has declared it without
/// a list, else a new one (C11 6.7.2.3p4, p5).
///
/// # Errors
///
/// `Memory` where memory is wanting.
pub fn struct_begun(
    alloc: Global,
    found: &mut Found,
    around: &Around<'_>,
    tag: Option<&Identifier>,
) -> Result<Option<u32>, Memory>
    ensures { Walks (spec.struct_begun (option_copied tag.entry)) around.now found.old result found.new }
{
    let Some(tag) = tag else {
        return Ok(Some(new_struct(found)?));
    };
    match found.own_tag(around, &tag.text) {
        None => begin_new(alloc, found, around, tag),
        Some(Tag::StructTag(number, false)) => begin(alloc, found, around, tag, number),
        Some(_) => {
            found.tell_if(true, FaultKind::Redeclared, tag.place)?;
            begin_new(alloc, found, around, tag)
        }
    }
}

/// The number of a new structure type, which has no members yet.
pub(crate) fn new_struct(found: &mut Found) -> Result<u32, Memory>
    ensures number { IfOk result (λ n. n ≡ length found.old.state.structs) }
    ensures faults { found.new.faults ≡ found.old.faults }
    ensures state { OnOk result (found.new.state ≡ spec.add_struct found.old.state) }
{
    let number = found.state.structs.declare()?;
    found.state.fixed.push(false)?;
    Ok(number)
}

/// The list of members of a new structure type begins.
fn begin_new(
    alloc: Global,
    found: &mut Found,
    around: &Around<'_>,
    tag: &Identifier,
) -> Result<Option<u32>, Memory>
    ensures { Walks (spec.begin_new tag.now) around.now found.old result found.new }
{
    let number = new_struct(found)?;
    begin(alloc, found, around, tag, number)
}

/// The list of members of this structure type begins.
fn begin(
    alloc: Global,
    found: &mut Found,
    around: &Around<'_>,
    tag: &Identifier,
    number: u32,
) -> Result<Option<u32>, Memory>
    ensures { Walks (spec.begun tag.now number) around.now found.old result found.new }
{
    found.declare_tag(alloc, &tag.text, Tag::StructTag(number, true))?;
    Ok(Some(number))
}

/// A member of this name and type, which is complete (C11 6.7.2.1p3); no member where there is no name.
///
/// # Errors
///
/// `Memory` where memory is wanting.
pub fn member_named(
    alloc: Global,
    found: &mut Found,
    around: &Around<'_>,
    name: Option<&Identifier>,
    ctype: Option<CType>,
) -> Result<Option<Items<(Identifier, Option<CType>)>>, Memory>
    ensures { Walks (spec.member_named (option_copied name.entry) ctype) around.now found.old result found.new }
{
    let mut members = Items::new(alloc);
    if let Some(name) = name {
        let ctype = complete_if_any(found, around, name.place, ctype)?;
        members.push((copied_identifier(alloc, name)?, ctype))?;
    }
    Ok(Some(members))
}

/// A complete type, where there is a type.
fn complete_if_any(
    found: &mut Found,
    around: &Around<'_>,
    at: Pos,
    ctype: Option<CType>,
) -> Result<Option<CType>, Memory>
    ensures { Walks (scopes.asked ctype (spec.complete_row at)) around.now found.old result found.new }
{
    match ctype {
        Some(ctype) => complete_row(found, around, at, ctype),
        None => Ok(None),
    }
}

/// The structure type of these members: their names differ (C11 6.2.3p1), and the whole has at most 2^24 bytes. Nothing
/// more is asked where a member has a fault.
///
/// # Errors
///
/// `Memory` where memory is wanting.
pub fn members_row(
    alloc: Global,
    found: &mut Found,
    around: &Around<'_>,
    at: Pos,
    number: u32,
    members: &[(Identifier, Option<CType>)],
) -> Result<Option<CType>, Memory>
    ensures { Walks (spec.members_row at number members.now) around.now found.old result found.new }
{
    if tell_repeated(alloc, found, members)? {
        return Ok(None);
    }
    let Some(declared) = as_declared(alloc, members)? else {
        return Ok(None);
    };
    let layout = lay_out(alloc, &found.state.structs, declared)?;
    completed(alloc, found, around, at, number, layout)
}

/// Tells of each member whose name stood before (C11 6.2.3p1), and whether there is one.
fn tell_repeated(
    alloc: Global,
    found: &mut Found,
    members: &[(Identifier, Option<CType>)],
) -> Result<bool, Memory>
    ensures any { IfOk result (λ any. any ≡ nat_lt 0 (length (spec.repeated [] members.now))) }
    ensures faults { OnOk result (found.new.faults ≡ found.old.faults ++ spec.repeated [] members.now) }
    ensures state { found.new.state ≡ found.old.state }
{
    let mut seen = IndexedList::new(alloc);
    let mut any = false;
    for member in members {
        let Ok(stood) = tell_member(alloc, found, &mut seen, &member.0) else {
            drop(seen);
            return Err(Memory);
        };
        any = any || stood;
    }
    drop(seen);
    Ok(any)
}

/// Tells of a member whose name is one of those seen so far, which it is from here on; and whether it was.
fn tell_member(
    alloc: Global,
    found: &mut Found,
    seen: &mut IndexedList<Text>,
    name: &Identifier,
) -> Result<bool, Memory>
    ensures stood { IfOk result (λ stood. stood ≡ list_any (bytes_eq name.now.text) seen.old) }
    ensures seen { OnOk result (seen.new ≡ seen.old ++ name.now.text ∷ []) }
    ensures faults { OnOk result (found.new.faults ≡ found.old.faults ++ scopes.fault_if (list_any (bytes_eq name.now.text) seen.old) kind.Redeclared name.now.place) }
    ensures state { found.new.state ≡ found.old.state }
{
    let stood = seen.contains(&name.text);
    found.tell_if(stood, FaultKind::Redeclared, name.place)?;
    seen.push(alloc, copied_text(alloc, &name.text)?)?;
    Ok(stood)
}

/// The members as they are declared, or `None` where a fault stands in one.
fn as_declared(
    alloc: Global,
    members: &[(Identifier, Option<CType>)],
) -> Result<Option<Vec<(Text, CType)>>, Memory>
    ensures { IfOk result (λ list. option_map (λ v. v.items) list ≡ spec.as_declared members.now) }
{
    let mut declared = Vec::new(alloc);
    for (name, ctype) in members {
        let Some(ctype) = ctype else {
            return Ok(None);
        };
        declared.push((copied_text(alloc, &name.text)?, copied(alloc, ctype)?))?;
    }
    Ok(Some(declared))
}

/// The structure type gets its layout, where it is not too large.
fn completed(
    alloc: Global,
    found: &mut Found,
    around: &Around<'_>,
    at: Pos,
    number: u32,
    layout: StructLayout,
) -> Result<Option<CType>, Memory>
    requires { is_alignment layout.alignment ≡ true }
    ensures { Walks (spec.completed at number layout) around.now found.old result found.new }
{
    if layout.size > MOST_BYTES {
        return found.tell(around, FaultKind::TooLarge, at);
    }
    let fixed = has_fixed(&found.state.fixed, &layout);
    found.state.structs.set(number, layout);
    set_fixed(&mut found.state.fixed, number, fixed);
    Ok(Some(plain(alloc, Base::Struct(number))))
}

/// Whether a member of a structure is `const`, or has a member or an element that is (C11 6.3.2.1p1).
fn has_fixed(fixed: &Items<bool>, layout: &StructLayout) -> bool
    ensures { result ≡ spec.has_fixed fixed.now layout.now }
{
    let members = layout.members.as_slice();
    members
        .iter()
        .any(|member| is_read_only(fixed, &member.ctype))
}

/// Keeps of a structure type, where there is one of this number, whether an object of it may be modified.
fn set_fixed(all: &mut Items<bool>, number: u32, fixed: bool)
    ensures { all.new ≡ slice_set all.old number fixed }
{
    if (number as usize) < all.len() {
        all.set(number as usize, fixed);
    }
}
