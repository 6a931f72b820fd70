//! Which operands are integer constant expressions, and which are null pointer constants
//! (C11 6.6p6, 6.3.2.3p3).

ghost use Rattle.std.specs.Prelude.{◌≡◌};
ghost use Rattle.c_typing.specs.Operands as spec;
ghost use Rattle.c_type_rules.specs.Constants.{is_plain_void_pointer, is_null_base};

use crate::kinds::is_integer;
use c_layout::constant_after;
use c_tree::typed::{Base, CType, Derived, Primary, TExpr};
use c_typing::Operand;

/// The value of an integer constant expression (C11 6.6p6), or `None` exactly where an operand is none.
pub fn constant_in(operand: &Operand) -> Option<u32>
    ensures { result ≡ spec.constant_in operand.now }
{
    constant_after(&operand.base, operand.steps.as_slice())
}

/// Whether an operand is a null pointer constant: an integer constant expression with the value 0, or one that is cast to
/// `void *` (C11 6.3.2.3p3).
pub fn is_null_constant(operand: &Operand) -> bool
    ensures { result ≡ spec.is_null_constant operand.now }
{
    if is_integer(&operand.ctype) {
        constant_in(operand) == Some(0)
    } else {
        is_void_pointer(&operand.ctype) && is_null(operand)
    }
}

/// Whether a type is `void *`, without qualifiers.
fn is_void_pointer(t: &CType) -> bool
    ensures { result ≡ is_plain_void_pointer t.now }
{
    t.base == Base::Void && !t.constant && matches!(t.derived.as_slice(), [Derived::Pointer(false)])
}

/// Whether an operand is a null pointer, with nothing done to it.
fn is_null(operand: &Operand) -> bool
    ensures { result ≡ is_null_base operand.now }
{
    operand.steps.is_empty() && matches!(operand.base, TExpr::Primary(_, Primary::Null))
}
