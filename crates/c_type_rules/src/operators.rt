//! Operators that take two operands: to which types these are converted, and the type of the result (C11 6.5.5 to 6.5.16).
//!
//! Where both operands are integers an operator has one form; what takes pointers stands apart.

ghost use Rattle.std.specs.Prelude.{◌≡◌, ◌&&◌, true, false, IfOk};
ghost use Rattle.c_layout.specs.Tags.{Structs};
ghost use Rattle.c_typing.specs.Types as types;
ghost use Rattle.c_typing.specs.Operators as spec;
ghost use Rattle.c_type_rules.specs.Operators.{done_at, balanced_plan, shifted_plan, compared_plan};

use crate::conversions::{common, is_signed, promoted, sign_of};
use crate::kinds::is_integer;
use crate::making::plain;
use crate::pointers::{compared_pointers, equated_pointers, index, pointers_subtracted};
use c_layout::Tags;
use c_tree::typed::{Arithmetic, Base, CType, Relation};
use c_tree::{FaultKind, Punct};
use c_typing::{Operand, Plan, Row};
use std::alloc::Global;
use word_ops::{Memory, Op};

/// An operation on integers, by the type at which it is done.
#[derive(Clone, Copy)]
enum Operation {
    /// the same at each type
    Always(Op),
    /// one at signed types, and one at unsigned types
    BySign(Op, Op),
}

impl Operation {
    fn at(self, base: Base) -> Arithmetic
        ensures { result ≡ done_at self base }
    {
        match self {
            Operation::Always(op) => Arithmetic::Word(op),
            Operation::BySign(signed, unsigned) => {
                Arithmetic::Word(if is_signed(base) { signed } else { unsigned })
            }
        }
    }
}

/// The type to which the usual arithmetic conversions bring two operands of integer type (C11 6.3.1.8). Takes no memory.
pub fn common_type(alloc: Global, left: &CType, right: &CType) -> CType
    ensures { result ≡ spec.common_type left.now right.now }
{
    plain(alloc, common(left.base, right.base))
}

/// The type of an operand of integer type after the integer promotions (C11 6.3.1.1p2). Takes no memory.
pub fn promoted_type(alloc: Global, t: &CType) -> CType
    ensures { result ≡ spec.promoted_type t.now }
{
    plain(alloc, promoted(t.base))
}

/// What a binary operator does with two operands: to which types they are converted, and the type of the result; or the
/// fault at the operator, `Mismatch` where it does not take them (C11 6.5.5 to 6.5.12).
///
/// # Errors
///
/// `Memory` where memory is wanting.
pub fn binary(
    alloc: Global,
    tags: &Tags,
    operator: Punct,
    left: &Operand,
    right: &Operand,
) -> Result<Row, Memory>
    ensures { IfOk result (λ row. row ≡ spec.binary tags.now operator left.now right.now) }
{
    if is_integer(&left.ctype) && is_integer(&right.ctype) {
        Ok(of_integers(alloc, operator, left, right))
    } else {
        of_pointers(alloc, tags, operator, left, right)
    }
}

/// The operator that a compound assignment, `++` or `--` contains (C11 6.5.16.2p3, 6.5.3.1p2), or `None` for others.
pub fn contained(operator: Punct) -> Option<Punct>
    ensures { result ≡ spec.contained operator }
{
    match operator {
        Punct::StarAssign => Some(Punct::Star),
        Punct::SlashAssign => Some(Punct::Slash),
        Punct::PercentAssign => Some(Punct::Percent),
        Punct::PlusAssign => Some(Punct::Plus),
        Punct::MinusAssign => Some(Punct::Minus),
        Punct::ShiftLeftAssign => Some(Punct::ShiftLeft),
        Punct::ShiftRightAssign => Some(Punct::ShiftRight),
        Punct::AmpersandAssign => Some(Punct::Ampersand),
        Punct::CaretAssign => Some(Punct::Caret),
        Punct::BarAssign => Some(Punct::Bar),
        Punct::Increment => Some(Punct::Plus),
        Punct::Decrement => Some(Punct::Minus),
        _ => None,
    }
}

/// What an operator does with two integers.
fn of_integers(alloc: Global, operator: Punct, left: &Operand, right: &Operand) -> Row
    requires { (types.is_integer left.now.ctype && types.is_integer right.now.ctype) ≡ true }
    ensures { (structs : Structs) → result ≡ spec.binary structs operator left.now right.now }
{
    let (l, r) = (&left.ctype, &right.ctype);
    match operator {
        Punct::Star => balanced(alloc, Operation::BySign(Op::Muls, Op::Mul), l, r),
        Punct::Slash => balanced(alloc, Operation::BySign(Op::Divs, Op::Divu), l, r),
        Punct::Percent => balanced(alloc, Operation::BySign(Op::Rems, Op::Remu), l, r),
        Punct::Plus => balanced(alloc, Operation::BySign(Op::Adds, Op::Add), l, r),
        Punct::Minus => balanced(alloc, Operation::BySign(Op::Subs, Op::Sub), l, r),
        Punct::Ampersand => balanced(alloc, Operation::Always(Op::And), l, r),
        Punct::Caret => balanced(alloc, Operation::Always(Op::Xor), l, r),
        Punct::Bar => balanced(alloc, Operation::Always(Op::Or), l, r),
        Punct::ShiftLeft => shifted(alloc, Operation::BySign(Op::Shls, Op::Shl), l, r),
        Punct::ShiftRight => shifted(alloc, Operation::BySign(Op::Shrs, Op::Shru), l, r),
        Punct::Less => compared(alloc, Relation::Less, l, r),
        Punct::Greater => compared(alloc, Relation::Greater, l, r),
        Punct::LessEqual => compared(alloc, Relation::AtMost, l, r),
        Punct::GreaterEqual => compared(alloc, Relation::AtLeast, l, r),
        Punct::Equal => compared(alloc, Relation::Equal, l, r),
        Punct::NotEqual => compared(alloc, Relation::NotEqual, l, r),
        _ => Row::Wrong(FaultKind::Mismatch),
    }
}

/// What an operator does with operands that are not both integers.
fn of_pointers(
    alloc: Global,
    tags: &Tags,
    operator: Punct,
    left: &Operand,
    right: &Operand,
) -> Result<Row, Memory>
    requires { (types.is_integer left.now.ctype && types.is_integer right.now.ctype) ≡ false }
    ensures { IfOk result (λ row. row ≡ spec.binary tags.now operator left.now right.now) }
{
    match operator {
        Punct::Plus => index(alloc, tags, left, right),
        Punct::Minus => pointers_subtracted(alloc, tags, left, right),
        Punct::Less => compared_pointers(alloc, Relation::Less, left, right),
        Punct::Greater => compared_pointers(alloc, Relation::Greater, left, right),
        Punct::LessEqual => compared_pointers(alloc, Relation::AtMost, left, right),
        Punct::GreaterEqual => compared_pointers(alloc, Relation::AtLeast, left, right),
        Punct::Equal => equated_pointers(alloc, Relation::Equal, left, right),
        Punct::NotEqual => equated_pointers(alloc, Relation::NotEqual, left, right),
        _ => Ok(Row::Wrong(FaultKind::Mismatch)),
    }
}

/// Integers are converted to their common type, which is that of the result (C11 6.5.5, 6.5.6, 6.5.10 to 6.5.12).
fn balanced(alloc: Global, operation: Operation, left: &CType, right: &CType) -> Row
    ensures { result ≡ balanced_plan (done_at operation) left.now right.now }
{
    let base = common(left.base, right.base);
    planned(
        plain(alloc, base),
        plain(alloc, base),
        operation.at(base),
        plain(alloc, base),
    )
}

/// Integers are each promoted; the result has the type of the left (C11 6.5.7p3).
fn shifted(alloc: Global, operation: Operation, left: &CType, right: &CType) -> Row
    ensures { result ≡ shifted_plan (done_at operation) left.now right.now }
{
    planned(
        promoted_type(alloc, left),
        promoted_type(alloc, right),
        operation.at(promoted(left.base)),
        promoted_type(alloc, left),
    )
}

/// Integers are compared at their common type (C11 6.5.8p3, 6.5.9p4).
fn compared(alloc: Global, relation: Relation, left: &CType, right: &CType) -> Row
    ensures { result ≡ compared_plan relation left.now right.now }
{
    let base = common(left.base, right.base);
    planned(
        plain(alloc, base),
        plain(alloc, base),
        Arithmetic::Compare(relation, sign_of(base)),
        plain(alloc, Base::Int),
    )
}

/// The row of operands that are taken: to which types they are converted, what is done, and the type of the result.
pub(crate) fn planned(left: CType, right: CType, operator: Arithmetic, whole: CType) -> Row
    ensures { result ≡ spec.plan left right whole operator }
{
    Row::Planned(Plan {
        left,
        right,
        operator,
        result: whole,
    })
}
