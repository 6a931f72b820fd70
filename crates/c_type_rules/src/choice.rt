//! The type of the last two operands of `? :`, where they go together
//! (C11 6.5.15p3, p5, p6).

ghost use Rattle.std.specs.Prelude.{◌≡◌, IfOk};
ghost use Rattle.c_typing.specs.Operands as operands;
ghost use Rattle.c_typing.specs.Operators as spec;
ghost use Rattle.c_type_rules.specs.Shapes.{lent};

use crate::copies::copied;
use crate::kinds::{is_integer, is_pointer, is_void};
use crate::making::{plain, pointer_to};
use crate::operators::common_type;
use crate::qualifiers::constant_if;
use crate::shapes::{LentType, target_of};
use c_tree::typed::{Base, CType};
use std::alloc::Global;
use word_ops::Memory;

/// The type of the whole, or `None` exactly where the operands do not go together (C11 6.5.15p3 to p6); of each its type,
/// and whether it is a null pointer constant.
///
/// # Errors
///
/// `Memory` where memory is wanting.
pub fn chosen_by(
    alloc: Global,
    left: &CType,
    left_is_null: bool,
    right: &CType,
    right_is_null: bool,
) -> Result<Option<CType>, Memory>
    ensures { IfOk result (λ r. r ≡ spec.chosen_by left.now left_is_null right.now right_is_null) }
{
    if is_integer(left) && is_integer(right) {
        Ok(Some(common_type(alloc, left, right)))
    } else if is_void(left) && is_void(right) {
        Ok(Some(plain(alloc, Base::Void)))
    } else if is_pointer(left) && right_is_null {
        Ok(Some(copied(alloc, left)?))
    } else if left_is_null && is_pointer(right) {
        Ok(Some(copied(alloc, right)?))
    } else {
        chosen_pointers(alloc, left, right)
    }
}

/// Two pointers: they point to the same type but for qualifiers, or one of them to `void`.
fn chosen_pointers(alloc: Global, left: &CType, right: &CType) -> Result<Option<CType>, Memory>
    ensures { IfOk result (λ r. r ≡ spec.chosen_pointers (operands.target_of left.now) (operands.target_of right.now)) }
{
    let (Some(one), Some(other)) = (target_of(left), target_of(right)) else {
        return Ok(None);
    };
    if one.is_alike(other) || (one.is_void() || other.is_void()) {
        Ok(Some(pointer_to(false, chosen_target(alloc, one, other)?)?))
    } else {
        Ok(None)
    }
}

/// The composite of two targets with the qualifiers of both; one that is `void` makes the other one `void` (C11 6.5.15p6).
fn chosen_target(alloc: Global, one: LentType, other: LentType) -> Result<CType, Memory>
    ensures { IfOk result (λ r. r ≡ spec.chosen_target (lent one.entry) (lent other.entry)) }
{
    let constant = one.is_qualified() || other.is_qualified();
    if one.is_void() || other.is_void() {
        Ok(constant_if(constant, plain(alloc, Base::Void)))
    } else {
        Ok(constant_if(constant, one.composite(alloc, other)?))
    }
}
