//! What may begin a static object: constants, null pointers and addresses (C11 6.6p7, p9, 6.7.9p4).
//! Rows: tests of an operand and of a typed tree.

ghost use Rattle.std.specs.List.{list_all};
ghost use Rattle.std.specs.Prelude.{◌≡◌};
ghost use Rattle.c_type_walk.specs.Walks.{fixed};
ghost use Rattle.c_typing.specs.Operands as operands;
ghost use Rattle.c_typing.specs.Starts as spec;

use crate::addresses::operand_address;
use c_tree::typed::{Conversion, Primary, Step, TExpr, Unary};
use c_type_rules::{constant_in, is_array, is_integer, is_lvalue, is_pointer};
use c_type_walk::{Around, Found};
use c_typing::Operand;

/// Whether an operand is an integer or a null pointer that is constant, or the address of a static object.
pub(crate) fn is_constant_start(found: &Found, around: &Around<'_>, operand: &Operand) -> bool
    ensures { result ≡ spec.is_constant_start (fixed around.now) found.now.state operand.now }
{
    (is_integer(&operand.ctype) && (!is_lvalue(operand) && constant_in(operand).is_some()))
        || (points_at_once(operand)
            && (is_null_behind(&operand.base, operand.steps.as_slice())
                || operand_address(operand, found, around).is_some()))
}

/// Whether an operand is an array, or a pointer that is not read from an object.
fn points_at_once(operand: &Operand) -> bool
    ensures { result ≡ spec.points_at_once operand.now }
{
    is_array(&operand.ctype) || (is_pointer(&operand.ctype) && !is_lvalue(operand))
}

/// Whether the value of an operand is a pointer (C11 6.3.2.1p3).
pub(crate) fn points(operand: &Operand) -> bool
    ensures { result ≡ spec.points operand.now }
{
    is_pointer(&operand.ctype) || is_array(&operand.ctype)
}

/// Whether a tree is a null pointer constant, cast to other pointers or not (C11 6.3.2.3p3, p4).
pub(crate) fn is_null_pointer(tree: &TExpr) -> bool
    ensures { result ≡ spec.is_null_pointer tree.now }
{
    match tree {
        TExpr::Applied(_, first, steps) => is_null_behind(first.get(), steps.as_slice()),
        tree => is_null(tree),
    }
}

fn is_null_behind(first: &TExpr, steps: &[Step]) -> bool
    ensures { result ≡ spec.is_null_behind first.now steps.now }
{
    is_null(first) && are_pointer_casts(steps)
}

fn are_pointer_casts(steps: &[Step]) -> bool
    ensures { result ≡ list_all spec.is_pointer_cast steps.now }
{
    steps.iter().all(is_pointer_cast)
}

fn is_null(tree: &TExpr) -> bool
    ensures { result ≡ operands.is_null tree.now }
{
    matches!(tree, TExpr::Primary(_, Primary::Null))
}

fn is_pointer_cast(step: &Step) -> bool
    ensures { result ≡ spec.is_pointer_cast step.now }
{
    matches!(step, Step::Unary(Unary::Convert(Conversion::Pointer)))
}
