//! Whether a value may be given to an object, by the type of the object and by what the
//! value is (C11 6.5.16.1p1).

ghost use Rattle.std.specs.Prelude.{◌≡◌};
ghost use Rattle.c_typing.specs.Types as types;
ghost use Rattle.c_typing.specs.Operands as spec;
ghost use Rattle.c_type_rules.specs.Shapes.{lent};

use crate::constants::is_null_constant;
use crate::kinds::{is_integer, is_integer_base, is_pointer};
use crate::shapes::{LentType, TypeShape, shape, target_of};
use c_tree::typed::{Base, CType};
use c_typing::Operand;

/// Whether a value is assignable to an object of this type (C11 6.5.16.1p1).
pub fn is_assignable(t: &CType, operand: &Operand) -> bool
    ensures { result ≡ spec.is_assignable t.now operand.now }
{
    match shape(t) {
        TypeShape::Basic(base) => base_takes(base, operand),
        TypeShape::PointerTo(_, target) => {
            is_null_constant(operand) || pointer_takes(target, &operand.ctype)
        }
        _ => false,
    }
}

/// An object of integer type takes integers, and a `_Bool` takes pointers too.
fn base_takes(base: Base, operand: &Operand) -> bool
    ensures { result ≡ spec.takes (types.Basic base) operand.now }
{
    (is_integer_base(base) && is_integer(&operand.ctype))
        || (matches!(base, Base::Bool) && is_pointer(&operand.ctype))
}

/// A pointer to this type takes one of the same type but for qualifiers, or one of them is to `void`; and the left target
/// has at least the qualifiers of the right.
fn pointer_takes(target: LentType, from: &CType) -> bool
    ensures { result ≡ spec.pointer_takes (lent target.entry) (spec.target_of from.now) }
{
    match target_of(from) {
        Some(source) => {
            (target.is_alike(source) || target.is_void() || source.is_void())
                && (target.is_qualified() || !source.is_qualified())
        }
        None => false,
    }
}
