//! What a type is at its outside, and what it is derived from, lent from the type itself
//! (C11 6.2.5p20).

ghost use Rattle.std.specs.Prelude.{◌≡◌};
ghost use Rattle.std.specs.Option.{option_map};
ghost use Rattle.c_typing.specs.Types as spec;
ghost use Rattle.c_typing.specs.Operands as operands;
ghost use Rattle.c_type_rules.specs.Shapes.{lent, meant};

use c_tree::typed::{Base, CType, Derived};

/// A type that is lent: a whole one, or one that another is derived from.
#[derive(Clone, Copy)]
pub struct LentType<'a> {
    /// the base type
    pub base: Base,
    /// whether the base type is qualified by `const`
    pub constant: bool,
    /// the derivations, innermost first
    pub derived: &'a [Derived],
}

/// What a type is at its outside, and what it is derived from (C11 6.2.5p20).
#[derive(Clone, Copy)]
pub enum TypeShape<'a> {
    /// no derivation
    Basic(Base),
    /// a pointer, whether it is `const` itself, and what it points to
    PointerTo(bool, LentType<'a>),
    /// an array, its number of elements where that is told, and their type
    ArrayOf(Option<u64>, LentType<'a>),
    /// a function, the types of its parameters, and that of its value
    FunctionOf(&'a [CType], LentType<'a>),
}

/// Lends a type.
pub fn lend(t: &CType) -> LentType<'_>
    ensures { lent result ≡ t.now }
{
    LentType {
        base: t.base,
        constant: t.constant,
        derived: t.derived.as_slice(),
    }
}

/// What a type is at its outside, and what it is derived from (C11 6.2.5p20).
pub fn shape(t: &CType) -> TypeShape<'_>
    ensures { meant result ≡ spec.shape t.now }
{
    lend(t).shape()
}

/// What a pointer points to (C11 6.7.6.1), or `None` exactly where the type is no pointer.
pub fn target_of(t: &CType) -> Option<LentType<'_>>
    ensures { option_map lent result ≡ operands.target_of t.now }
{
    match shape(t) {
        TypeShape::PointerTo(_, target) => Some(target),
        _ => None,
    }
}

impl<'a> LentType<'a> {
    /// What the type is at its outside, and what it is derived from (C11 6.2.5p20).
    pub fn shape(self) -> TypeShape<'a>
        ensures { meant result ≡ spec.shape (lent self.entry) }
    {
        let Some((outermost, inner)) = self.derived.split_last() else {
            return TypeShape::Basic(self.base);
        };
        let origin = LentType {
            derived: inner,
            ..self
        };
        match outermost {
            Derived::Pointer(constant) => TypeShape::PointerTo(*constant, origin),
            Derived::Array(count) => TypeShape::ArrayOf(*count, origin),
            Derived::Function(parameters) => TypeShape::FunctionOf(parameters.as_slice(), origin),
        }
    }
}
