//! Qualifiers of types (C11 6.7.3): whether a type is `const`, and the type with or
//! without the qualifier.

ghost use Rattle.std.specs.Prelude.{◌≡◌, ◌<◌, Bool, length, reverse};
ghost use Rattle.c_typing.specs.Types as spec;
ghost use Rattle.c_type_rules.specs.Shapes.{lent};
ghost use Rattle.c_type_rules.specs.Qualifiers.{requalified, IsWithin};

use crate::shapes::{LentType, TypeShape, lend};
use c_tree::typed::{CType, Derived};

/// Where the qualifier of a type stands (C11 6.7.3p9).
#[derive(Clone, Copy)]
enum Place {
    /// at its base type
    Base,
    /// at the pointer of this index among its derivations
    Pointer(usize),
    /// nowhere, since a function has none
    Nowhere,
}

/// Whether a type is `const`: the qualifier of an array is that of its element (C11 6.7.3p9).
pub fn is_constant(t: &CType) -> bool
    ensures { result ≡ spec.is_constant t.now }
{
    lend(t).is_constant()
}

/// A type with or without `const` (C11 6.7.3). A function type stays as it is. Takes no memory.
pub fn with_constant(constant: bool, t: CType) -> CType
    ensures { result ≡ spec.with_constant constant t }
{
    let CType {
        base,
        constant: old,
        mut derived,
    } = t;
    match qualified_at(derived.as_slice()) {
        Place::Base => CType {
            base,
            constant,
            derived,
        },
        Place::Pointer(at) => {
            derived.set(at, Derived::Pointer(constant));
            CType {
                base,
                constant: old,
                derived,
            }
        }
        Place::Nowhere => CType {
            base,
            constant: old,
            derived,
        },
    }
}

/// The unqualified version of a type (C11 6.2.5p26). Takes no memory.
pub fn unqualified(t: CType) -> CType
    ensures { result ≡ spec.unqualified t }
{
    with_constant(false, t)
}

/// A type that is also `const` where that is told. Takes no memory.
pub fn constant_if(constant: bool, t: CType) -> CType
    ensures { result ≡ spec.constant_if constant t }
{
    if constant { with_constant(true, t) } else { t }
}

/// Where the qualifier stands of a type of these derivations.
fn qualified_at(derived: &[Derived]) -> Place
    ensures is { (k base : Bool) → spec.qualified_by k base (reverse derived.now) ≡ requalified k base result derived.now }
    ensures within { IsWithin result (length derived.now) }
{
    match derived.split_last() {
        None => Place::Base,
        Some((Derived::Pointer(_), inner)) => Place::Pointer(inner.len()),
        Some((Derived::Array(_), inner)) => qualified_at(inner),
        Some((Derived::Function(_), _)) => Place::Nowhere,
    }
}

impl LentType<'_> {
    /// Whether the type itself is `const`: an array has no qualifier of its own (C11 6.7.3p9).
    pub fn is_qualified(self) -> bool
        ensures { result ≡ spec.is_qualified (lent self.entry) }
    {
        match self.shape() {
            TypeShape::Basic(_) => self.constant,
            TypeShape::PointerTo(constant, _) => constant,
            _ => false,
        }
    }

    /// Whether the type is `const`: the qualifier of an array is that of its element (C11 6.7.3p9).
    pub fn is_constant(self) -> bool
        ensures { result ≡ spec.is_constant (lent self.entry) }
    {
        match self.shape() {
            TypeShape::Basic(_) => self.constant,
            TypeShape::PointerTo(constant, _) => constant,
            TypeShape::ArrayOf(_, element) => element.is_constant(),
            TypeShape::FunctionOf(_, _) => false,
        }
    }
}
