//! Where the members of a structure lie.

ghost use Rattle.std.specs.Prelude.{◌≡◌, ◌<◌, ◌≢◌, true, length, slice_get, slice_set, find, AllPairs, All, IfOk, OnOk, OnErr, Some, None};
ghost use Rattle.std.specs.Option.{option_copied};
ghost use Rattle.c_layout.specs.Tags.{is_alignment};
ghost use Rattle.c_layout.specs.Sizes as sizes;
ghost use Rattle.c_layout.specs.Structures as spec;

use crate::sizes::{align, size};
use crate::tags::{MemberLayout, StructLayout, Tags};
use c_tree::typed::CType;
use std::alloc::Global;
use word_ops::{Items, Memory, Text};

/// Gives a structure type its members, in the order of their declarations (C11 6.7.2.1, 6.7.2.3p4).
///
/// The time is linear in the number of members and of derivations in their types.
///
/// # Errors
///
/// `Memory` where memory for the members is wanting; `tags` is as before then.
pub fn complete(
    alloc: Global,
    tags: &mut Tags,
    tag: u32,
    members: Vec<(Text, CType)>,
) -> Result<(), Memory>
    requires open { slice_get tags.old tag ≡ Some None }
    requires some { 0 < length members.items }
    requires names { AllPairs (λ m n. m.0 ≢ n.0) members.items }
    requires complete { All (λ m. sizes.is_complete tags.old m.1 ≡ true) members.items }
    ensures ok { OnOk result (tags.new ≡ slice_set tags.old tag (Some (spec.layout tags.old members.items))) }
    ensures err { OnErr result (tags.new ≡ tags.old) }
{
    let layout = lay_out(alloc, tags, members)?;
    tags.set(tag, layout);
    Ok(())
}

/// The member of a name (C11 6.2.3p1), or `None` exactly where the structure has no members or none of this
/// name. The time is linear in the number of members.
pub fn member<'a>(tag: u32, name: &Text, tags: &'a Tags) -> Option<&'a MemberLayout>
    ensures { option_copied result ≡ spec.member_of tags.now tag name.now }
{
    let layout = tags.layout(tag)?;
    find_member(layout.members.as_slice(), name)
}

/// The offset of a member in bytes (C11 6.7.2.1p15), or `None` exactly where the structure has no members or
/// none of this name.
///
/// A structure that is not in the list counts as one without members. An offset above 2^64 - 1 is given as
/// 2^64 - 1.
pub fn member_offset(tag: u32, name: &Text, tags: &Tags) -> Option<u64>
    ensures { result ≡ spec.offset_of tags.now tag name.now }
{
    Some(member(tag, name, tags)?.offset)
}

fn find_member<'a>(members: &'a [MemberLayout], name: &Text) -> Option<&'a MemberLayout>
    ensures { option_copied result ≡ find (spec.has_name name.now) members.now }
{
    members.iter().find(|member| member.name == *name)
}

/// The layout of a structure of these members, in the order of their declarations (C11 6.7.2.1p15, p17).
///
/// Neither that the names differ nor that the types are complete is asked: a member of an incomplete type counts as one
/// of no bytes. The time is linear in the number of members and of derivations in their types.
///
/// # Errors
///
/// `Memory` where memory for the members is wanting.
pub fn lay_out(
    alloc: Global,
    tags: &Tags,
    members: Vec<(Text, CType)>,
) -> Result<StructLayout, Memory>
    ensures layout { IfOk result (λ layout. layout ≡ spec.layout tags.now members.items) }
    ensures aligned { IfOk result (λ layout. is_alignment layout.alignment ≡ true) }
{
    let mut placed = Vec::new(alloc);
    let mut end = 0;
    let mut alignment = 1;
    for (name, ctype) in members {
        let strictness = strictness(&ctype, tags);
        let offset = next_multiple(end, strictness);
        end = offset.saturating_add(bytes(&ctype, tags));
        alignment = alignment.max(strictness);
        placed.push(MemberLayout {
            name,
            ctype,
            offset,
        })?;
    }
    Ok(StructLayout {
        size: next_multiple(end, alignment),
        alignment,
        members: Items::from_vec(placed),
    })
}

/// The bytes of an object of a type, 0 where it is incomplete.
fn bytes(t: &CType, tags: &Tags) -> u64
    ensures { result ≡ sizes.capped (spec.bytes_of tags.now t.now) }
{
    size(t, tags).unwrap_or(0)
}

/// The alignment of an object of a type, 1 where it is incomplete.
fn strictness(t: &CType, tags: &Tags) -> u64
    ensures strictness { result ≡ spec.strictness_of tags.now t.now }
    ensures aligned { is_alignment result ≡ true }
{
    align(t, tags).unwrap_or(1)
}

/// The next multiple of an alignment, from a number on.
fn next_multiple(n: u64, alignment: u64) -> u64
    requires { 0 < alignment }
    ensures { result ≡ sizes.capped (spec.next_multiple n alignment) }
{
    let rest = n % alignment;
    if rest == 0 {
        n
    } else {
        n.saturating_add(alignment - rest)
    }
}
