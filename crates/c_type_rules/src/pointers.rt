//! Rows of the table of operators with a pointer among the operands
//! (C11 6.5.6, 6.5.8, 6.5.9).

ghost use Rattle.std.specs.Prelude.{◌≡◌, ◌∷◌, [], IfOk};
ghost use Rattle.c_typing.specs.Types as types;
ghost use Rattle.c_typing.specs.Operands as operands;
ghost use Rattle.c_typing.specs.Operators as spec;
ghost use Rattle.c_type_rules.specs.Pointers.{size_to, stride_of, pointer_left, pointer_right};

use crate::constants::is_null_constant;
use crate::conversions::{promoted, sign_of};
use crate::copies::copied;
use crate::kinds::{is_integer, is_pointer};
use crate::making::{in_word, plain};
use crate::operators::{planned, promoted_type};
use crate::shapes::target_of;
use c_layout::{Tags, size};
use c_tree::FaultKind;
use c_tree::typed::{Arithmetic, Base, CType, Relation, Stride};
use c_typing::{Operand, Row};
use std::alloc::Global;
use word_ops::Memory;

/// What `+` does with a pointer and an integer, and with it `[ ]` (C11 6.5.6p2, p8, 6.5.2.1p2); or the fault at the
/// operator, `Mismatch` for other operands.
///
/// # Errors
///
/// `Memory` where memory is wanting.
pub fn index(alloc: Global, tags: &Tags, left: &Operand, right: &Operand) -> Result<Row, Memory>
    ensures { IfOk result (λ row. row ≡ spec.first_row (spec.pointer_and_integer tags.now spec.plus_stride ∷ spec.integer_and_pointer tags.now spec.stride_plus ∷ []) left.now right.now) }
{
    let (l, r) = (&left.ctype, &right.ctype);
    if is_pointer(l) && is_integer(r) {
        match stride(alloc, tags, l, r)? {
            Some(stride) => moved(alloc, Arithmetic::PointerPlus(stride), l, r),
            None => Ok(Row::Wrong(FaultKind::Incomplete)),
        }
    } else if is_integer(l) && is_pointer(r) {
        match stride(alloc, tags, r, l)? {
            Some(stride) => moved_right(alloc, Arithmetic::PlusPointer(stride), l, r),
            None => Ok(Row::Wrong(FaultKind::Incomplete)),
        }
    } else {
        Ok(Row::Wrong(FaultKind::Mismatch))
    }
}

/// What `-` does with a pointer and an integer, or with two pointers (C11 6.5.6p3, p8, p9).
pub(crate) fn pointers_subtracted(
    alloc: Global,
    tags: &Tags,
    left: &Operand,
    right: &Operand,
) -> Result<Row, Memory>
    ensures { IfOk result (λ row. row ≡ spec.first_row (spec.pointer_and_integer tags.now spec.minus_stride ∷ spec.pointers_apart tags.now ∷ []) left.now right.now) }
{
    let (l, r) = (&left.ctype, &right.ctype);
    if is_pointer(l) && is_integer(r) {
        match stride(alloc, tags, l, r)? {
            Some(stride) => moved(alloc, Arithmetic::PointerMinus(stride), l, r),
            None => Ok(Row::Wrong(FaultKind::Incomplete)),
        }
    } else if are_to_the_same(l, r) {
        match element_size(alloc, tags, l)? {
            Some(size) => to_int(alloc, Arithmetic::Difference(size), l, r),
            None => Ok(Row::Wrong(FaultKind::Incomplete)),
        }
    } else {
        Ok(Row::Wrong(FaultKind::Mismatch))
    }
}

/// What a relational operator does with two pointers (C11 6.5.8p2).
pub(crate) fn compared_pointers(
    alloc: Global,
    relation: Relation,
    left: &Operand,
    right: &Operand,
) -> Result<Row, Memory>
    ensures { IfOk result (λ row. row ≡ spec.first_row (spec.compared_pointers relation ∷ []) left.now right.now) }
{
    let (l, r) = (&left.ctype, &right.ctype);
    if are_to_the_same(l, r) {
        to_int(alloc, Arithmetic::ComparePointers(relation), l, l)
    } else {
        Ok(Row::Wrong(FaultKind::Mismatch))
    }
}

/// What an equality operator does with two operands of which one is a pointer (C11 6.5.9p2, p5).
pub(crate) fn equated_pointers(
    alloc: Global,
    relation: Relation,
    left: &Operand,
    right: &Operand,
) -> Result<Row, Memory>
    ensures { IfOk result (λ row. row ≡ spec.first_row (spec.compared_pointers relation ∷ spec.pointer_and_void relation ∷ spec.pointer_and_null relation ∷ []) left.now right.now) }
{
    let (l, r) = (&left.ctype, &right.ctype);
    let comparison = Arithmetic::ComparePointers(relation);
    if are_to_the_same(l, r) {
        to_int(alloc, comparison, l, l)
    } else if is_pointer(l) && is_pointer(r) && (is_void_pointer(l) || is_void_pointer(r)) {
        to_int(alloc, comparison, l, r)
    } else if is_pointer(l) && is_null_constant(right) {
        to_int(alloc, comparison, l, l)
    } else if is_null_constant(left) && is_pointer(r) {
        to_int(alloc, comparison, r, r)
    } else {
        Ok(Row::Wrong(FaultKind::Mismatch))
    }
}

/// Whether both types are pointers, to the same type but for qualifiers.
fn are_to_the_same(left: &CType, right: &CType) -> bool
    ensures { result ≡ spec.same_targets (operands.target_of left.now) (operands.target_of right.now) }
{
    match (target_of(left), target_of(right)) {
        (Some(one), Some(other)) => one.is_alike(other),
        _ => false,
    }
}

/// Whether a type is a pointer to `void`, whatever the qualifiers.
fn is_void_pointer(t: &CType) -> bool
    ensures { result ≡ spec.points_to_void (operands.target_of t.now) }
{
    match target_of(t) {
        Some(target) => target.is_void(),
        None => false,
    }
}

/// How far an integer moves a pointer, or `None` exactly where the size of what that points to is not known.
fn stride(
    alloc: Global,
    tags: &Tags,
    pointer: &CType,
    integer: &CType,
) -> Result<Option<Stride>, Memory>
    ensures { IfOk result (λ r. r ≡ stride_of tags.now pointer.now integer.now) }
{
    match element_size(alloc, tags, pointer)? {
        Some(element) => Ok(Some(Stride {
            element,
            sign: sign_of(promoted(integer.base)),
        })),
        None => Ok(None),
    }
}

/// The size of what a pointer points to, or `None` exactly where that is not complete or the type is no pointer.
fn element_size(alloc: Global, tags: &Tags, pointer: &CType) -> Result<Option<u32>, Memory>
    ensures { IfOk result (λ r. r ≡ size_to tags.now (operands.target_of pointer.now)) }
{
    match target_of(pointer) {
        Some(target) => {
            let target = target.copied(alloc)?;
            Ok(size(&target, tags).map(in_word))
        }
        None => Ok(None),
    }
}

/// An operation of a pointer and an integer, which gives such a pointer.
fn moved(
    alloc: Global,
    operator: Arithmetic,
    pointer: &CType,
    integer: &CType,
) -> Result<Row, Memory>
    ensures { IfOk result (λ row. row ≡ pointer_left operator pointer.now integer.now) }
{
    Ok(planned(
        copied(alloc, pointer)?,
        promoted_type(alloc, integer),
        operator,
        copied(alloc, pointer)?,
    ))
}

/// An operation of an integer and a pointer, which gives such a pointer.
fn moved_right(
    alloc: Global,
    operator: Arithmetic,
    integer: &CType,
    pointer: &CType,
) -> Result<Row, Memory>
    ensures { IfOk result (λ row. row ≡ pointer_right operator integer.now pointer.now) }
{
    Ok(planned(
        promoted_type(alloc, integer),
        copied(alloc, pointer)?,
        operator,
        copied(alloc, pointer)?,
    ))
}

/// An operation at these types, which gives an `int`.
fn to_int(alloc: Global, operator: Arithmetic, left: &CType, right: &CType) -> Result<Row, Memory>
    ensures { IfOk result (λ row. row ≡ spec.plan left.now right.now types.int operator) }
{
    Ok(planned(
        copied(alloc, left)?,
        copied(alloc, right)?,
        operator,
        plain(alloc, Base::Int),
    ))
}
