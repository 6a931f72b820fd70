//! The sizes and the alignments of types.

ghost use Rattle.std.specs.Prelude.{◌≡◌, true, is_some};
ghost use Rattle.c_layout.specs.Sizes as spec;

use crate::tags::{StructLayout, Tags};
use c_tree::typed::{Base, CType, Derived};

/// The size of a type in bytes (C11 6.5.3.4), or `None` exactly where the type is incomplete (C11 6.2.5p1,
/// p19, p22) or a function: void, a structure without members, an array without a count or of such a type.
///
/// A structure that is not in the list counts as one without members. A size above 2^64 - 1 is given as
/// 2^64 - 1. The time is linear in the number of derivations.
pub fn size(t: &CType, tags: &Tags) -> Option<u64>
    ensures size { result ≡ spec.size_of tags.now t.now }
    ensures complete { is_some result ≡ spec.is_complete tags.now t.now }
{
    sized(base_size(t.base, tags), t.derived.as_slice())
}

/// The alignment of a type in bytes (C11 6.2.8, 6.5.3.4p2), or `None` exactly where the type is incomplete
/// or a function.
pub fn align(t: &CType, tags: &Tags) -> Option<u64>
    ensures alignment { result ≡ spec.alignment_of tags.now t.now }
    ensures complete { is_some result ≡ spec.is_complete tags.now t.now }
    ensures aligned { spec.is_alignment_if_any result ≡ true }
{
    aligned(base_alignment(t.base, tags), t.derived.as_slice())
}

/// The size of what is derived from a type of this size.
fn sized(before: Option<u64>, derivations: &[Derived]) -> Option<u64>
    requires { spec.capped_size before ≡ before }
    ensures { result ≡ spec.capped_size (spec.sized before derivations.now) }
{
    let mut size = before;
    for derivation in derivations {
        size = derived_size(size, derivation);
    }
    size
}

/// The alignment of what is derived from a type of this alignment.
fn aligned(before: Option<u64>, derivations: &[Derived]) -> Option<u64>
    ensures { result ≡ spec.aligned before derivations.now }
{
    let mut alignment = before;
    for derivation in derivations {
        alignment = derived_alignment(alignment, derivation);
    }
    alignment
}

fn base_size(base: Base, tags: &Tags) -> Option<u64>
    ensures size { result ≡ spec.base_size tags.now base }
    ensures fits { spec.capped_size result ≡ result }
{
    match base {
        Base::Void => None,
        Base::Struct(tag) => Some(struct_size(tags.layout(tag)?)),
        scalar => Some(scalar_bytes(scalar)),
    }
}

fn struct_size(layout: &StructLayout) -> u64
    ensures size { result ≡ layout.now.size }
    ensures fits { spec.capped result ≡ result }
{
    layout.size
}

fn base_alignment(base: Base, tags: &Tags) -> Option<u64>
    ensures alignment { result ≡ spec.base_alignment tags.now base }
    ensures aligned { spec.is_alignment_if_any result ≡ true }
{
    match base {
        Base::Void => None,
        Base::Struct(tag) => Some(tags.layout(tag)?.alignment),
        scalar => Some(scalar_bytes(scalar)),
    }
}

/// How many bytes an integer or enumerated type has.
fn scalar_bytes(base: Base) -> u64
    ensures { result ≡ spec.scalar_bytes base }
{
    match base {
        Base::Void | Base::Struct(_) => 0,
        Base::Bool | Base::Char | Base::SignedChar | Base::UnsignedChar => 1,
        Base::Short | Base::UnsignedShort => 2,
        Base::Int | Base::Unsigned | Base::Long | Base::UnsignedLong | Base::Enum(_) => 4,
    }
}

fn derived_size(before: Option<u64>, derivation: &Derived) -> Option<u64>
    ensures { result ≡ spec.capped_size (spec.derived_size before derivation.now) }
{
    match derivation {
        Derived::Pointer(_) => Some(4),
        Derived::Array(Some(count)) => before.map(|bytes| count.saturating_mul(bytes)),
        Derived::Array(None) => None,
        Derived::Function(_) => None,
    }
}

fn derived_alignment(before: Option<u64>, derivation: &Derived) -> Option<u64>
    ensures { result ≡ spec.derived_alignment before derivation.now }
{
    match derivation {
        Derived::Pointer(_) => Some(4),
        Derived::Array(Some(_)) => before,
        Derived::Array(None) => None,
        Derived::Function(_) => None,
    }
}
