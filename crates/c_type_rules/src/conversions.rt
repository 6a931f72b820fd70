//! Conversions of integer types, and how a value of a type is kept in an object
//! (C11 6.3.1, 6.2.6).

ghost use Rattle.std.specs.Prelude.{◌≡◌};
ghost use Rattle.c_typing.specs.Conversions as spec;
ghost use Rattle.c_typing.specs.Types as types;
ghost use Rattle.c_typing.specs.Operands as operands;

use crate::kinds::is_integer_base;
use crate::shapes::{TypeShape, shape};
use c_tree::IntKind;
use c_tree::typed::{Base, CType, Conversion, Scalar, Sign};
use word_ops::Width;

/// The conversion rank of an integer type (C11 6.3.1.1p1); an enumerated type has that of `int`.
pub fn integer_rank(base: Base) -> u8
    ensures { result ≡ spec.integer_rank base }
{
    match base {
        Base::Bool => 0,
        Base::Char | Base::SignedChar | Base::UnsignedChar => 1,
        Base::Short | Base::UnsignedShort => 2,
        Base::Void | Base::Int | Base::Unsigned | Base::Enum(_) | Base::Struct(_) => 3,
        Base::Long | Base::UnsignedLong => 4,
    }
}

/// Whether an integer type is signed (C11 6.2.5p4); `char` is unsigned by the profile's choice.
pub fn is_signed(base: Base) -> bool
    ensures { result ≡ spec.is_signed base }
{
    matches!(
        base,
        Base::SignedChar | Base::Short | Base::Int | Base::Long | Base::Enum(_)
    )
}

/// How the values of an integer type are read (C11 6.2.5p4, p6).
pub fn sign_of(base: Base) -> Sign
    ensures { result ≡ spec.sign_of base }
{
    if is_signed(base) {
        Sign::Signed
    } else {
        Sign::Unsigned
    }
}

/// An enumerated type counts as `int` (C11 6.7.2.2p4).
fn as_int(base: Base) -> Base
    ensures { result ≡ spec.as_int base }
{
    match base {
        Base::Enum(_) => Base::Int,
        other => other,
    }
}

/// The type of a value of this type after the integer promotions (C11 6.3.1.1p2).
pub fn promoted(base: Base) -> Base
    ensures { result ≡ spec.promoted base }
{
    match base {
        Base::Bool
        | Base::Char
        | Base::SignedChar
        | Base::UnsignedChar
        | Base::Short
        | Base::UnsignedShort => Base::Int,
        other => as_int(other),
    }
}

/// The type to which the usual arithmetic conversions bring two operands of these types (C11 6.3.1.8).
pub fn common(left: Base, right: Base) -> Base
    ensures { result ≡ spec.common left right }
{
    common_of_promoted(promoted(left), promoted(right))
}

/// The same of promoted types: of one signedness that of the higher rank; else the unsigned one where its rank is not
/// lower; else the unsigned type of the signed one, since `long` does not hold all of `unsigned int` (C11 6.3.1.8p1).
fn common_of_promoted(left: Base, right: Base) -> Base
    ensures { result ≡ spec.common_of left right }
{
    match (is_signed(left), is_signed(right)) {
        (true, false) => balanced(left, right),
        (false, true) => balanced(right, left),
        _ => {
            if integer_rank(left) < integer_rank(right) {
                right
            } else {
                left
            }
        }
    }
}

fn balanced(signed: Base, unsigned: Base) -> Base
    ensures { result ≡ spec.balanced signed unsigned }
{
    if integer_rank(signed) <= integer_rank(unsigned) {
        unsigned
    } else {
        unsigned_of(signed)
    }
}

/// The unsigned type of a rank from that of `int` on (C11 6.2.5p6).
fn unsigned_of(base: Base) -> Base
    ensures { result ≡ spec.unsigned_of base }
{
    match base {
        Base::Long | Base::UnsignedLong => Base::UnsignedLong,
        _ => Base::Unsigned,
    }
}

/// The type of an integer constant (C11 6.4.4.1p5).
pub fn base_of_constant(kind: IntKind) -> Base
    ensures { result ≡ spec.base_of_constant kind }
{
    match kind {
        IntKind::Int => Base::Int,
        IntKind::Unsigned => Base::Unsigned,
        IntKind::Long => Base::Long,
        IntKind::UnsignedLong => Base::UnsignedLong,
    }
}

/// How wide an object of an integer type is, and how it is read (C11 6.2.6).
pub fn width_of_base(base: Base) -> Width
    ensures { result ≡ spec.width_of_base base }
{
    match base {
        Base::Bool | Base::Char | Base::UnsignedChar => Width::U8,
        Base::SignedChar => Width::S8,
        Base::Short => Width::S16,
        Base::UnsignedShort => Width::U16,
        _ => Width::Word,
    }
}

/// How a value of a type is kept, or `None` exactly where the type is not scalar (C11 6.2.5p21).
pub fn scalar_of(t: &CType) -> Option<Scalar>
    ensures { result ≡ spec.scalar_of t.now }
{
    match shape(t) {
        TypeShape::Basic(base) => scalar_of_base(base),
        TypeShape::PointerTo(_, _) => Some(Scalar::Pointer),
        _ => None,
    }
}

fn scalar_of_base(base: Base) -> Option<Scalar>
    ensures { result ≡ spec.scalar_of_shape (types.Basic base) }
{
    if is_integer_base(base) {
        Some(Scalar::Integer(width_of_base(base)))
    } else {
        None
    }
}

/// The conversion to a scalar type (C11 6.3).
pub fn conversion_to(t: &CType) -> Conversion
    ensures { result ≡ operands.conversion_to t.now }
{
    match shape(t) {
        TypeShape::Basic(Base::Bool) => Conversion::Bool,
        TypeShape::Basic(base) => Conversion::Integer(width_of_base(base)),
        _ => Conversion::Pointer,
    }
}
