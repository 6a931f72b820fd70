//! Of which kind a type is (C11 6.2.5): an integer, a pointer, scalar, a structure and
//! so on.

ghost use Rattle.std.specs.Prelude.{◌≡◌};
ghost use Rattle.c_typing.specs.Types as spec;
ghost use Rattle.c_type_rules.specs.Shapes.{lent};

use crate::shapes::{LentType, TypeShape, lend, shape};
use c_tree::typed::{Base, CType};

/// Whether a type is an integer type: `_Bool`, the character types, the others and enumerated types (C11 6.2.5p17).
pub fn is_integer(t: &CType) -> bool
    ensures { result ≡ spec.is_integer t.now }
{
    match shape(t) {
        TypeShape::Basic(base) => is_integer_base(base),
        _ => false,
    }
}

/// Whether a type is `void` (C11 6.2.5p19).
pub fn is_void(t: &CType) -> bool
    ensures { result ≡ spec.is_void t.now }
{
    lend(t).is_void()
}

/// Whether a type is a structure type (C11 6.2.5p20).
pub fn is_struct(t: &CType) -> bool
    ensures { result ≡ spec.is_struct t.now }
{
    matches!(shape(t), TypeShape::Basic(Base::Struct(_)))
}

/// Whether a type is `_Bool` (C11 6.2.5p2).
pub fn is_bool(t: &CType) -> bool
    ensures { result ≡ spec.is_bool t.now }
{
    matches!(shape(t), TypeShape::Basic(Base::Bool))
}

/// Whether a type is a character type (C11 6.2.5p15).
pub fn is_character(t: &CType) -> bool
    ensures { result ≡ spec.is_character t.now }
{
    matches!(
        shape(t),
        TypeShape::Basic(Base::Char | Base::SignedChar | Base::UnsignedChar)
    )
}

/// Whether a type is a pointer type (C11 6.2.5p20).
pub fn is_pointer(t: &CType) -> bool
    ensures { result ≡ spec.is_pointer t.now }
{
    matches!(shape(t), TypeShape::PointerTo(_, _))
}

/// Whether a type is an array type (C11 6.2.5p20).
pub fn is_array(t: &CType) -> bool
    ensures { result ≡ spec.is_array t.now }
{
    matches!(shape(t), TypeShape::ArrayOf(_, _))
}

/// Whether a type is a function type (C11 6.2.5p20).
pub fn is_function(t: &CType) -> bool
    ensures { result ≡ spec.is_function t.now }
{
    matches!(shape(t), TypeShape::FunctionOf(_, _))
}

/// Whether a type is a scalar type: an arithmetic type, or a pointer (C11 6.2.5p21).
pub fn is_scalar(t: &CType) -> bool
    ensures { result ≡ spec.is_scalar t.now }
{
    is_integer(t) || is_pointer(t)
}

/// Whether a base type is an integer type.
pub(crate) fn is_integer_base(base: Base) -> bool
    ensures { result ≡ spec.is_integer_base base }
{
    !matches!(base, Base::Void | Base::Struct(_))
}

impl LentType<'_> {
    /// Whether the type is `void` (C11 6.2.5p19).
    pub fn is_void(self) -> bool
        ensures is { result ≡ spec.is_void (lent self.entry) }
        ensures unqualified { result ≡ spec.is_void (spec.unqualified (lent self.entry)) }
    {
        matches!(self.shape(), TypeShape::Basic(Base::Void))
    }
}
